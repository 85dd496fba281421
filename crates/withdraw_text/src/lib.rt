// A withdrawal as a reply: the reply to verb 4 of the pipe.
#![tactic(auto)]

ghost use Rattle.std.specs.Prelude.{[], ◌∷◌, ◌≤◌, length};
ghost use Rattle.definition.specs.Text.{text_of};
ghost use Rattle.report.specs.Report.{fitted, Begins};
ghost use Rattle.withdraw_text.specs.Reply.{RepliedOfWithdrawal};

use report::{LINE, write_fitted};
use text::write_rows;
use withdrawal::withdraw;

// The bytes of the reply: the line of the report, and the row of the session.
pub const LONGEST: usize = 2 * LINE;

// Writes the line of a report that has a question's number alone, and the row of the session, its first eight words.
fn print_reply(number: u32, words: &[u32], text: &mut [u8])
    requires { 162 ≤ length text.old }
    ensures { Begins (text_of ((number ∷ 0 ∷ 0 ∷ 0 ∷ 0 ∷ 0 ∷ 0 ∷ 0 ∷ []) ∷ fitted 8 words.now ∷ [])) text.old 162 text.new }
{
    let mut rows = [0u32; 16];
    rows[0] = number;
    write_fitted(words, &mut rows[8..]);
    write_rows(&rows, text);
}

// Withdraws the latest accepted entry, and writes the reply. Returns the number of bytes, or 0 where the lent text is shorter than the reply; then nothing is
// withdrawn.
pub fn withdraw_lent(words: &mut [u32], bytes: &[u8], text: &mut [u8]) -> usize
    ensures { RepliedOfWithdrawal words.old bytes.now text.old result words.new text.new }
{
    if text.len() < LONGEST {
        return 0;
    }
    let x = withdraw(words, bytes);
    print_reply(x.number, words, text);
    LONGEST
}
