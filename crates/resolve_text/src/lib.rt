// The resolver from text to text: a sheet's text and the bytes of its names, and the report as text.
#![tactic(auto)]

ghost use Rattle.resolve_text.specs.Report.{RepliedOfTexts, PrintedOfFiles};

use ast::limit;
use report::reply_to;
use resolver::resolve;

// Writes the report of a sheet's text and its names, with so many answer rows lent. Returns the number of bytes: none where more
// than 2,048 rows are lent or the lent text is shorter than the longest report. Of a text that is too long to be accepted one byte more than
// the longest accepted has is enough.
pub fn resolve_lent(sheet: &[u8], names: &[u8], lent: usize, text: &mut [u8]) -> usize
    ensures { RepliedOfTexts lent sheet.now names.now text.old result text.new }
{
    let mut ask = |rows: &[u32], out: &mut [u32]| resolve(rows, names, out);
    reply_to(sheet, lent, report::LONGEST, text, &mut ask).unwrap_or(0)
}

// Writes what the program prints of the texts of sheet.txt and names.txt: the report with 2,048 rows lent. Returns the number of bytes:
// none where the lent text is shorter than the longest report. Of a file that is too long one byte more is enough, as above.
pub fn resolve_text(sheet: &[u8], names: &[u8], text: &mut [u8]) -> usize
    ensures { PrintedOfFiles sheet.now names.now text.old result text.new }
{
    resolve_lent(sheet, names, limit::LENT_ROWS as usize, text)
}
