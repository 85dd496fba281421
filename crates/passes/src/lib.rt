// The passes over all rows of a sheet.
#![tactic(auto)]

ghost use Rattle.std.specs.Prelude.{◌≡◌, true};
ghost use Rattle.definition.specs.Basics.{all, from};
ghost use Rattle.row_fits.specs.Pass.{rows_ok, rows_noted, literal_ok, declaration_ok, class_ok, method_ok, cross_ok, depth_ok};

use ast::kind::Kind;
use ast::{column, limit};
use row_fits::known;
use row_fits::row::pass_row;
use words::{is_kind, word};

// Do the rows fit as they are reached, in rising order? Each tells the table what it knows of its next row and first child.
pub fn fill(sheet: &[u32], n: u32, last: u32, table: &mut [u32]) -> bool
    ensures value { result ≡ rows_ok sheet.now last n 0 table.old }
    ensures table_after { result ≡ true → table.new ≡ rows_noted sheet.now n 0 table.old }
{
    for r in 0..n {
        if !pass_row(sheet, last, r, table) {
            return false;
        }
    }
    true
}

#[tactic(auto, unfolding(row_fits::specs::Pass::literal_ok))]
fn literal_fits(sheet: &[u32], table: &[u32], row: u32) -> bool
    ensures { result ≡ literal_ok sheet.now table.now row }
{
    if is_kind(sheet, row, Kind::Literal) {
        let class = word(sheet, row, column::A);
        class == 0 || word(table, class, known::UNIT) == word(table, row, known::UNIT)
    } else {
        true
    }
}

#[tactic(auto, unfolding(row_fits::specs::Pass::declaration_ok))]
fn declaration_fits(sheet: &[u32], table: &[u32], row: u32) -> bool
    ensures { result ≡ declaration_ok sheet.now table.now row }
{
    if is_kind(sheet, row, Kind::ClassDeclaration) {
        let fun = word(table, row, known::FUNCTION);
        let class = word(sheet, row, column::A);
        word(table, fun, known::PARENT) == word(table, class, known::PARENT)
    } else {
        true
    }
}

#[tactic(auto, unfolding(row_fits::specs::Pass::class_ok))]
fn class_fits(sheet: &[u32], table: &[u32], row: u32) -> bool
    ensures { result ≡ class_ok sheet.now table.now row }
{
    !is_kind(sheet, row, Kind::Class) || word(table, row, known::DECLARED) != 0
}

#[tactic(auto, unfolding(row_fits::specs::Pass::method_ok))]
fn method_fits(table: &[u32], row: u32) -> bool
    ensures { result ≡ method_ok table.now row }
{
    let class = word(table, row, known::CLASS);
    class == 0 || row < word(table, class, known::DECLARED)
}

#[tactic(auto, unfolding(row_fits::specs::Pass::cross_ok))]
fn cross_fits(sheet: &[u32], table: &[u32], row: u32) -> bool
    ensures { result ≡ cross_ok sheet.now table.now row }
{
    literal_fits(sheet, table, row)
        && declaration_fits(sheet, table, row)
        && class_fits(sheet, table, row)
        && method_fits(table, row)
}

// Does what the table says of two rows fit, for every row?
pub fn all_cross(sheet: &[u32], n: u32, table: &[u32]) -> bool
    ensures { result ≡ all (cross_ok sheet.now table.now) (from 0 n) }
{
    (0..n).all(|r| cross_fits(sheet, table, r))
}

#[tactic(auto, unfolding(row_fits::specs::Pass::depth_ok))]
fn depth_fits(table: &[u32], row: u32) -> bool
    ensures { result ≡ depth_ok table.now row }
{
    word(table, row, known::DEPTH) <= limit::DEPTH
}

// Question 4: is every depth at most 64?
pub fn all_depths(n: u32, table: &[u32]) -> bool
    ensures { result ≡ all (depth_ok table.now) (from 0 n) }
{
    (0..n).all(|r| depth_fits(table, r))
}
