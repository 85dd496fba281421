// Questions 3 and 4 of the words of a sheet past question 1.
ghost use Rattle.std.specs.Prelude.{◌≡◌, true, ◌*◌, ◌<◌, ◌≤◌, length, replicate};
ghost use Rattle.ast.specs.Question.{no_of};
ghost use Rattle.definition.specs.Sheet.{rows};
ghost use Rattle.definition.specs.Format.{header_first, main_marked};
ghost use Rattle.row_fits.specs.Pass.{rows_noted};
ghost use Rattle.first_four.specs.Questions.{format_question};
ghost use Rattle.first_four.specs.Whole.{links_ok, rows_all};

use ast::kind::Kind;
use ast::question::Question;
use ast::{column, flag};
use distinct::all_apart;
use links::{linked_once, links_rise};
use passes::{all_cross, all_depths, fill};
use words::{is_kind, word};

// Row 0 is the header.
fn header_first(sheet: &[u32]) -> bool
    ensures { result ≡ header_first sheet.now }
{
    is_kind(sheet, 0, Kind::Header) && word(sheet, 0, column::NEXT) == 0
}

// The main function, if the header names one, is a unit's.
fn main_marked(sheet: &[u32]) -> bool
    ensures { result ≡ main_marked sheet.now }
{
    let main = word(sheet, 0, column::B);
    main == 0 || word(sheet, main, column::B) == flag::UNIT_FUNCTION
}

// `seen` has a zero for each row.
#[tactic(auto, unfolding(crate::specs::Whole::links_ok))]
fn links_fit(sheet: &[u32], seen: &mut [u32]) -> bool
    requires { (rows sheet.now ≤ 2048) × (seen.old ≡ replicate 2048 0) }
    ensures { result ≡ links_ok sheet.now }
{
    header_first(sheet) && main_marked(sheet) && links_rise(sheet) && linked_once(sheet, seen)
}

// The passes over the rows of a sheet, with a table and marks of zeros. The table is filled.
#[tactic(auto, unfolding(crate::specs::Whole::rows_all))]
fn rows_fit(sheet: &[u32], last: u32, table: &mut [u32], marks: &mut [u32]) -> bool
    requires { rows sheet.now ≤ 2048 }
    ensures value { result ≡ rows_all sheet.now last table.old marks.old }
    ensures table_after { result ≡ true → table.new ≡ rows_noted sheet.now (rows sheet.now) 0 table.old }
{
    let n = (sheet.len() / 8) as u32;
    fill(sheet, n, last, table) && all_apart(sheet, n, marks) && all_cross(sheet, n, table)
}

// Questions 3 and 4, with scratch space of zeros; `last` is the number of the last name.
fn ask(
    sheet: &[u32],
    last: u32,
    seen: &mut [u32],
    table: &mut [u32],
    marks: &mut [u32],
) -> Result<(), Question>
    requires sheet_len { (length sheet.now ≡ 8 * rows sheet.now) × (0 < rows sheet.now) × (rows sheet.now ≤ 2048) × (last < 1049) }
    requires seen_value { (seen.old ≡ replicate 2048 0) × (table.old ≡ replicate 16384 0) × (marks.old ≡ replicate 1049 0) }
    ensures { no_of result ≡ format_question last sheet.now }
{
    if !links_fit(sheet, seen) {
        return Err(Question::FormatFits);
    }
    if !rows_fit(sheet, last, table, marks) {
        return Err(Question::FormatFits);
    }
    if !all_depths((sheet.len() / 8) as u32, table) {
        return Err(Question::DepthFits);
    }
    Ok(())
}

pub fn format_question(sheet: &[u32], last: u32) -> Result<(), Question>
    requires { (length sheet.now ≡ 8 * rows sheet.now) × (0 < rows sheet.now) × (rows sheet.now ≤ 2048) × (last < 1049) }
    ensures { no_of result ≡ format_question last sheet.now }
{
    let mut seen = [0u32; 2048];
    let mut table = [0u32; 16384];
    let mut marks = [0u32; 1049];
    ask(sheet, last, &mut seen, &mut table, &mut marks)
}
