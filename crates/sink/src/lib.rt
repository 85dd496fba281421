// The lent answer words, filled row by row.
#![tactic(auto)]

ghost use Rattle.std.specs.Prelude.{◌≡◌, ◌/◌, length};
ghost use Rattle.sink.specs.Sink.{emit as emitted};
ghost use Rattle.sink.specs.Written.{words_of, written};

use ast::code::Code;

// An answer row: its sheet row, its code and up to four values.
#[derive(Clone, Copy, Debug, PartialEq, Eq)]
pub struct AnswerRow {
    pub row: u32,
    pub code: Code,
    pub one: u32,
    pub two: u32,
    pub three: u32,
    pub four: u32,
}

// A row as it is stored.
impl From<AnswerRow> for [u32; 8] {
    ghost from_gives = { λ x words. words ≡ words_of x };

    fn from(x: AnswerRow) -> [u32; 8] {
        [x.row, x.code.number(), x.one, x.two, x.three, x.four, 0, 0]
    }
}

// Answer rows written into lent words: how many there are, or one more than fit. The lent words are a field of this struct itself: so
// a caller that lends them knows what they hold afterwards.
#[derive(Drop)]
pub struct Rows<'b> {
    pub words: &'b mut [u32],
    pub count: usize,
}

impl Rows<'_> {
    // How many rows fit.
    pub fn room(&self) -> usize
        ensures { result ≡ length self.now.words.now / 8 }
    {
        self.words.len() / 8
    }

    // One row more, as it is stored.
    #[tactic(auto, using(crate::proofs::SinkLaws::emit_fits, crate::proofs::SinkLaws::emit_full))]
    pub fn push_words(&mut self, words: [u32; 8])
        ensures step { written self.new ≡ emitted words (written self.old) }
        ensures same { self.new.words.ghost_name ≡ self.old.words.ghost_name }
    {
        let n = self.count;
        let room = self.words.len() / 8;
        if n < room {
            self.words[8 * n..8 * n + 8].copy_from_slice(&words);
            self.count = n + 1;
        } else {
            self.count = room + 1;
        }
    }

    // One row more.
    pub fn push(&mut self, row: AnswerRow)
        ensures step { written self.new ≡ emitted (words_of row) (written self.old) }
        ensures same { self.new.words.ghost_name ≡ self.old.words.ghost_name }
    {
        self.push_words(<[u32; 8]>::from(row));
    }
}
