// An entry from text to text: a sheet's text and the bytes of its names, entered into a session, and the report with the session's row as text. It is the reply
// to verb 2 of the pipe.
#![tactic(auto)]

ghost use Rattle.std.specs.Prelude.{◌≡◌, Option, None, List, ℕ, ◌++◌, ◌+◌, ◌≤◌, length};
ghost use Rattle.std.specs.Option.{IfSome};
ghost use Rattle.report.specs.Report.{Begins};
ghost use Rattle.enter_text.specs.Reply.{session_row, RepliedOfEntry};

use prompt::enter;
use report::{LINE, reply_to, write_fitted};
use text::write_rows;

// The bytes of the longest report and the row of the session.
pub const LONGEST: usize = report::LONGEST + LINE;

// Writes the row of a session: its counts, the first eight words.
fn print_session(words: &[u32], text: &mut [u8])
    requires { 81 ≤ length text.old }
    ensures { Begins (session_row words.now) text.old 81 text.new }
{
    let mut row = [0u32; 8];
    write_fitted(words, &mut row);
    write_rows(&row, text);
}

// Writes the row of a session after a reply, if there is one. Returns the number of bytes of both.
pub fn with_session(reply: Option<usize>, words: &[u32], text: &mut [u8]) -> usize
    requires { IfSome reply (λ n. n + 81 ≤ length text.old) }
    ensures told { IfSome reply (λ n. (told before : List ℕ) → Begins told before n text.old
        → Begins (told ++ session_row words.now) before result text.new) }
    ensures none { reply ≡ None → (result ≡ 0) × (text.new ≡ text.old) }
{
    let Some(n) = reply else {
        return 0;
    };
    print_session(words, &mut text[n..]);
    n + LINE
}

// Enters a sheet's text and its names, with so many answer rows lent, and writes the reply. Returns the number of bytes, or 0 where more than 2,048 rows are lent
// or the lent text is shorter than the longest reply; then nothing is entered. Of a text that is too long to be accepted one byte more than the
// longest accepted has is enough.
pub fn enter_lent(
    words: &mut [u32],
    bytes: &mut [u8],
    sheet: &[u8],
    names: &[u8],
    lent: usize,
    text: &mut [u8],
) -> usize
    ensures { RepliedOfEntry lent words.old bytes.old sheet.now names.now text.old result
        words.new bytes.new text.new }
{
    let mut ask = |rows: &[u32], out: &mut [u32]| enter(words, bytes, rows, names, out);
    let reply = reply_to(sheet, lent, LONGEST, text, &mut ask);
    with_session(reply, words, text)
}
