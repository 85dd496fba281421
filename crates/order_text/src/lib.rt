// The order of a sheet's units from text to text: the reply to verb 7 of the pipe.
#![tactic(auto)]

ghost use Rattle.std.specs.Prelude.{◌≡◌, ◌∷◌, ◌++◌, ◌+◌, ◌-◌, ◌*◌, ◌≤◌, length, replicate};
ghost use Rattle.definition.specs.Basics.{concat_map};
ghost use Rattle.unit_order.specs.Order.{unit_row};
ghost use Rattle.report.specs.Report.{Begins};
ghost use Rattle.order_text.specs.Reply.{printed_order, RepliedOfOrder};

use ast::limit;
use order_units::order_units;
use report::print_answer;
use text::read_sheet;

// Writes each word of a list as a row, with seven zeros after it, into words that are zero; the first row is left to the line of the report.
fn write_units(list: &[u32], report: &mut [u32])
    requires { (8 * (length list.now + 1) ≤ length report.old) × (report.old ≡ replicate (length report.old) 0) }
    ensures { report.new ≡ concat_map unit_row (0 ∷ list.now) ++ replicate (length report.old - 8 * (length list.now + 1)) 0 }
{
    for (i, &row) in list.iter().enumerate() {
        report[8 * i + 8] = row;
    }
}

// The report of a sheet's text, as text, with the lent words for the sheet, the list and the report.
fn print_order(
    sheet: &[u8],
    names: &[u8],
    words: &mut [u32],
    list: &mut [u32],
    report: &mut [u32],
    text: &mut [u8],
) -> usize
    requires { (length list.old ≤ 2048) × (length words.old ≡ 16384) × (report.old ≡ replicate 16392 0) × (165969 ≤ length text.old) }
    ensures { Begins (printed_order (length list.old) sheet.now names.now) text.old result text.new }
{
    let n = read_sheet(sheet, words);
    let x = order_units(&words[..8 * n], names, list);
    write_units(list, report);
    print_answer(x, report, text)
}

// Writes the order of the units of a sheet's text, a row for each unit, with so many words lent for the list. Returns the number of bytes:
// none where more than 2,048 words are lent or the lent text is shorter than the longest report. Of a text that is too long to be accepted one
// byte more than the longest accepted has is enough.
pub fn order_lent(sheet: &[u8], names: &[u8], lent: usize, text: &mut [u8]) -> usize
    ensures { RepliedOfOrder lent sheet.now names.now text.old result text.new }
{
    if lent > limit::LENT_ROWS as usize || text.len() < report::LONGEST {
        return 0;
    }
    let mut words = [0u32; 16384];
    let mut list = [0u32; 2048];
    let mut report = [0u32; 16392];
    print_order(
        sheet,
        names,
        &mut words,
        &mut list[..lent],
        &mut report,
        text,
    )
}
