// A preview from text to text: the report of a sheet's text and the bytes of its names, as if they were entered, with the session's row. It is the reply to verb 3
// of the pipe.
#![tactic(auto)]

ghost use Rattle.preview_text.specs.Reply.{RepliedOfPreview};

use enter_text::{LONGEST, with_session};
use preview::preview;
use report::reply_to;

// Previews a sheet's text and its names, with so many answer rows lent, and writes the reply. Returns the number of bytes, or 0 where more than 2,048 rows are
// lent or the lent text is shorter than the longest reply. Of a text that is too long to be accepted one byte more than the longest accepted has is enough.
pub fn preview_lent(
    words: &[u32],
    bytes: &[u8],
    sheet: &[u8],
    names: &[u8],
    lent: usize,
    text: &mut [u8],
) -> usize
    ensures { RepliedOfPreview lent words.now bytes.now sheet.now names.now text.old result
        text.new }
{
    let mut ask = |rows: &[u32], out: &mut [u32]| preview(words, bytes, rows, names, out);
    let reply = reply_to(sheet, lent, LONGEST, text, &mut ask);
    with_session(reply, words, text)
}
