// The text of a name as a reply: the reply to verb 5 of the pipe.
#![tactic(auto)]

ghost use Rattle.std.specs.Prelude.{◌≡◌, not, ◌++◌, ◌≤◌, eqb, length, drop};
ghost use Rattle.report.specs.Report.{Begins};
ghost use Rattle.name_reply.specs.Reply.{printed_name, RepliedOfName};

use name_text::name_text;
use report::LINE;
use text::write_rows;

// Puts bytes at the start of the lent text.
fn put_start(name: &[u8], text: &mut [u8])
    requires { length name.now ≤ length text.old }
    ensures { text.new ≡ name.now ++ drop (length name.now) text.old }
{
    text[..name.len()].copy_from_slice(name);
}

// Writes the line of a report that refuses nothing and has no rows, with the length of a name in it, and then the name. Returns the number of bytes.
fn print_name(name: &[u8], text: &mut [u8]) -> usize
    requires { (length name.now ≤ 255) × (336 ≤ length text.old) }
    ensures { Begins (printed_name name.now) text.old result text.new }
{
    let line = [0, 0, 0, 0, 0, 0, 0, name.len() as u32];
    write_rows(&line, text);
    put_start(name, &mut text[LINE..]);
    LINE + name.len()
}

// Writes the reply to the number of a name, of a session or of an entry with these names: how many bytes its text has, and the text. Returns the number of
// bytes, or 0 where the lent text is shorter than the longest report. Of a list that is too long to be accepted one byte more than the longest
// accepted has is enough.
pub fn name_lent<'a>(
    words: &[u32],
    bytes: &'a [u8],
    names: &'a [u8],
    whose: u32,
    number: u32,
    text: &mut [u8],
) -> usize
    ensures { RepliedOfName words.now bytes.now names.now (not (eqb whose 0)) number
        text.old result text.new }
{
    if text.len() < report::LONGEST {
        return 0;
    }
    let name = name_text(words, bytes, names, whose, number);
    print_name(name, text)
}
