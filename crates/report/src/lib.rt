// Reports: an answer as the eight numbers of document 01, and with its rows as text.
#![tactic(auto)]

ghost use Rattle.std.specs.Prelude.{◌≡◌, ◌⊎◌, ◌+◌, ◌*◌, ◌<◌, ◌≤◌, Option, None, min, length};
ghost use Rattle.std.specs.Option.{IfSome};
ghost use Rattle.report.specs.Report.{fitted, told_by, Printed};
ghost use Rattle.report.specs.Asked.{RepliedBy};
ghost use Rattle.answer.specs.declared.Answer.{Answer};

use answer::Answer;
use ast::limit;
use text::{read_sheet, write_rows};
use words::word_at;

// The bytes of a line.
pub const LINE: usize = 81;

// The bytes of 2,049 lines: the longest report that is written as text.
pub const LONGEST: usize = 2049 * LINE;

// A count in a report word, where any that is larger than a word is the largest word.
fn count_word(n: usize) -> u32
    ensures { result ≡ min 4294967295 n }
{
    u32::try_from(n).unwrap_or(u32::MAX)
}

// The line that an answer tells.
#[tactic(auto, unfolding(crate::specs::Report::told_by))]
pub fn first_line(x: Answer) -> [u32; 8]
    ensures { result ≡ told_by x }
{
    let pos = x.pos;
    [
        x.number,
        pos.file_id(),
        pos.line_no(),
        pos.col_no(),
        x.name,
        count_word(x.rows),
        x.globals,
        0,
    ]
}

// Writes words as far as the lent ones go, and zeros after them. Word by word: a copy of a slice would have the library for C ask for `memcpy`.
pub fn write_fitted(words: &[u32], lent: &mut [u32])
    ensures { lent.new ≡ fitted (length lent.old) words.now }
{
    for i in 0..lent.len() {
        lent[i] = word_at(words, i);
    }
}

// Writes the report of an answer as text. Its rows stand in the words from the ninth on; the first line is put before them. Returns the
// number of bytes.
pub fn print_answer(x: Answer, words: &mut [u32], text: &mut [u8]) -> usize
    requires { (8 * (x.rows + 1) ≤ length words.old) × (81 * (x.rows + 1) ≤ length text.old) }
    ensures { Printed x words.old text.old result words.new text.new }
{
    let line = first_line(x);
    write_fitted(&line, &mut words[..8]);
    write_rows(&words[..8 * (x.rows + 1)], text)
}

// The reply to a sheet's text: `ask` answers the rows that are read, with so many answer rows lent, and the report is written. Returns the number of bytes: none
// where more than 2,048 rows are lent or the lent text is shorter than `longest`, and then nothing is asked.
pub fn reply_to<F: FnMut(&[u32], &mut [u32]) -> Answer>(
    sheet: &[u8],
    lent: usize,
    longest: usize,
    text: &mut [u8],
    ask: &mut F,
) -> Option<usize>
    requires callable { F.IsAlwaysCallable ask.old }
    requires few { (rows : _) (out : _) (x : Answer) (out' : _) (s : F) → length out.now ≡ 8 * lent → F.step ask.old rows out x out' s → x.rows ≤ lent }
    requires room { 165969 ≤ longest }
    ensures told { IfSome result (λ n. (lent ≤ 2048) × (longest ≤ length text.old)
        × (RepliedBy (λ rows out x out'. F.step ask.old rows out x out' ask.new) sheet.now lent text.old n text.new)) }
    ensures none { result ≡ None → ((2048 < lent) ⊎ ((lent ≤ 2048) × (length text.old < longest))) × (text.new ≡ text.old) × (ask.new ≡ ask.old) }
{
    if lent > limit::LENT_ROWS as usize || text.len() < longest {
        return None;
    }
    let mut words = [0u32; 16384];
    let mut report = [0u32; 16392];
    let n = read_sheet(sheet, &mut words);
    let x = ask(&words[..8 * n], &mut report[8..8 + 8 * lent]);
    Some(print_answer(x, &mut report, text))
}
