// The names of fields or methods that a record tells, one by one.
ghost use Rattle.std.specs.Prelude.{◌+◌, ◌*◌, ◌^◌, ◌<◌, ◌≤◌};

use words::word_at;

// Names in the lent words, of fields or of methods: where the next stands, how many words it is from one to the next, and how many are left.
#[derive(Clone, Copy)]
pub struct RecordedNames<'a> {
    pub outside: &'a [u32],
    pub at: usize,
    pub step: usize,
    pub left: u32,
    ghost few: { step ≤ 3 },
    ghost near: { at + step * left < 2 ^ 63 },
}

impl<'a> RecordedNames<'a> {
    ghost use Rattle.std.specs.Prelude.{◌≡◌, []};
    ghost use Rattle.outside.specs.Words.{spaced_at};
    ghost use Rattle.outside.specs.Left.{names_left};

    // So many names from a place on, one in `step` words.
    pub fn spaced(outside: &'a [u32], at: u32, step: usize, left: u32) -> RecordedNames<'a>
        requires { step ≤ 3 }
        ensures { names_left result ≡ spaced_at outside.now step at left }
    {
        RecordedNames {
            outside,
            at: at as usize,
            step,
            left,
        }
    }

    #[tactic(auto, using(crate::proofs::RecordLaws::spaced_none))]
    pub fn none(outside: &'a [u32]) -> RecordedNames<'a>
        ensures { names_left result ≡ [] }
    {
        RecordedNames::spaced(outside, 0, 1, 0)
    }
}

impl<'a> Iterator for RecordedNames<'a> {
    ghost use Rattle.std.specs.Iterator.{YieldsFirst, item_count};
    ghost use Rattle.outside.specs.Left.{names_left};

    type Item = u32;

    ghost next_gives = { YieldsFirst names_left };

    ghost remaining = { item_count names_left };

    #[tactic(auto, using(crate::proofs::RecordLaws::spaced_none, crate::proofs::RecordLaws::spaced_next))]
    fn next(&mut self) -> Option<u32> {
        if self.left == 0 {
            return None;
        }
        let name = word_at(self.outside, self.at);
        self.at += self.step;
        self.left -= 1;
        Some(name)
    }
}
