// A sheet's text stored by column, or taken back, as text: the replies to verbs 9 and 10 of the pipe.
#![tactic(auto)]

ghost use Rattle.std.specs.Prelude.{◌≡◌};
ghost use Rattle.ast.specs.Question.{no_of};
ghost use Rattle.columns_text.specs.Reply.{told_by, RepliedOfText};

use answer::Answer;
use ast::question::Question;
use columns::{Way, rearrange};
use lexer::SrcPos;
use report::reply_to;

// The answer with all lent rows, or after a no with none.
#[tactic(auto, unfolding(crate::specs::Reply::told_by))]
fn tell(asked: Result<(), Question>, lent: usize) -> Answer
    ensures { result ≡ told_by (no_of asked) lent }
{
    let (number, rows) = match asked {
        Ok(()) => (0, lent),
        Err(no) => (no as u32, 0),
    };
    Answer {
        number,
        pos: SrcPos(0),
        name: 0,
        rows,
        globals: 0,
    }
}

// Writes the reply to a sheet's text stored by column, or taken back, with so many rows lent for the target. Returns the number of bytes: none
// where more than 2,048 rows are lent or the lent text is shorter than the longest report. Of a text that is too long to be accepted one byte
// more than the longest accepted has is enough.
pub fn columns_lent(sheet: &[u8], way: Way, lent: usize, text: &mut [u8]) -> usize
    ensures { RepliedOfText way lent sheet.now text.old result text.new }
{
    let mut ask = |rows: &[u32], out: &mut [u32]| tell(rearrange(way, rows, out), lent);
    reply_to(sheet, lent, report::LONGEST, text, &mut ask).unwrap_or(0)
}
