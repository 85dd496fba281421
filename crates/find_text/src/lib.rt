// A name looked for in a list, as text: the reply to verb 6 of the pipe.
#![tactic(auto)]

ghost use Rattle.std.specs.Prelude.{◌≡◌};
ghost use Rattle.find_text.specs.Reply.{row_of, RepliedOfNames};

use answer::Answer;
use lexer::SrcPos;
use name_index::{Found, find_name};
use report::print_answer;

// One row, and nothing refused.
const ONE_ROW: Answer = Answer {
    number: 0,
    pos: SrcPos(0),
    name: 0,
    rows: 1,
    globals: 0,
};

// Room for the first line of a report, and the row that tells what was found.
fn found_words(x: Found) -> [u32; 16]
    ensures { result ≡ row_of x }
{
    [
        0,
        0,
        0,
        0,
        0,
        0,
        0,
        0,
        x.number.unwrap_or(0),
        x.places,
        0,
        0,
        0,
        0,
        0,
        0,
    ]
}

// Writes the reply to bytes looked for in a list of names: its number, 0 where it is absent, and how many places of the index were read. Returns
// the number of bytes, or 0 where the lent text is shorter than the longest report. Of a list that is too long to be accepted one byte more
// than the longest accepted has is enough.
pub fn find_lent(names: &[u8], name: &[u8], text: &mut [u8]) -> usize
    ensures { RepliedOfNames names.now name.now text.old result text.new }
{
    if text.len() < report::LONGEST {
        return 0;
    }
    let mut words = found_words(find_name(names, name));
    print_answer(ONE_ROW, &mut words, text)
}
