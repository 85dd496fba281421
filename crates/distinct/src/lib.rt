// Names of one unit's classes and exports, and of one class's fields and methods: is none there twice?
#![tactic(auto)]

ghost use Rattle.std.specs.Prelude.{◌≡◌, true, ◌≤◌, ◌<◌};
ghost use Rattle.ast.specs.Kind.{kind_number};
ghost use Rattle.definition.specs.Sheet.{kids as kids_in};
ghost use Rattle.distinct.specs.Apart.{child_unmarked, child_marked, unmarked, marked, unit_unmarked, unit_marked, class_unmarked, class_marked};
ghost use Rattle.distinct.specs.Apart.{row_unmarked, row_marked, all_unmarked};

use ast::column;
use ast::kind::Kind;
use sheet::kids;
use words::{entry_at, is_kind, put_entry, word};

// Has row `c`, if it is of a kind, a name that is not marked with `mark` yet? It is marked then.
#[tactic(auto, unfolding(crate::specs::Apart::child_unmarked, crate::specs::Apart::child_marked))]
fn child_apart(sheet: &[u32], c: u32, kind: Kind, mark: u32, marks: &mut [u32]) -> bool
    ensures value { result ≡ child_unmarked sheet.now (kind_number kind) mark marks.old c }
    ensures marks_after { result ≡ true → marks.new ≡ child_marked sheet.now (kind_number kind) mark marks.old c }
{
    if !is_kind(sheet, c, kind) {
        return true;
    }
    let name = word(sheet, c, column::A);
    if entry_at(marks, name) == mark {
        return false;
    }
    put_entry(marks, name, mark);
    true
}

// Have the children of `row` that are of a kind names that are not marked with `mark` yet? Each is marked then.
fn names_apart(sheet: &[u32], row: u32, kind: Kind, mark: u32, marks: &mut [u32]) -> bool
    ensures value { result ≡ unmarked sheet.now (kind_number kind) mark marks.old (kids_in sheet.now row) }
    ensures marks_after { result ≡ true → marks.new ≡ marked sheet.now (kind_number kind) mark marks.old (kids_in sheet.now row) }
{
    for c in kids(sheet, row) {
        if !child_apart(sheet, c, kind, mark, marks) {
            return false;
        }
    }
    true
}

#[tactic(auto, unfolding(crate::specs::Apart::unit_unmarked, crate::specs::Apart::unit_marked))]
fn unit_apart(sheet: &[u32], row: u32, marks: &mut [u32]) -> bool
    requires { row < 2048 }
    ensures value { result ≡ unit_unmarked sheet.now row marks.old }
    ensures marks_after { result ≡ true → marks.new ≡ unit_marked sheet.now row marks.old }
{
    names_apart(sheet, row, Kind::Class, 4 * row + 1, marks)
        && names_apart(sheet, row, Kind::FunctionExport, 4 * row + 2, marks)
        && names_apart(sheet, row, Kind::ConstantExport, 4 * row + 3, marks)
}

#[tactic(auto, unfolding(crate::specs::Apart::class_unmarked, crate::specs::Apart::class_marked))]
fn class_apart(sheet: &[u32], row: u32, marks: &mut [u32]) -> bool
    requires { row < 2048 }
    ensures value { result ≡ class_unmarked sheet.now row marks.old }
    ensures marks_after { result ≡ true → marks.new ≡ class_marked sheet.now row marks.old }
{
    names_apart(sheet, row, Kind::Field, 4 * row + 1, marks)
        && names_apart(sheet, row, Kind::Function, 4 * row + 2, marks)
}

#[tactic(auto, unfolding(crate::specs::Apart::row_unmarked, crate::specs::Apart::row_marked))]
fn row_apart(sheet: &[u32], row: u32, marks: &mut [u32]) -> bool
    requires { row < 2048 }
    ensures value { result ≡ row_unmarked sheet.now row marks.old }
    ensures marks_after { result ≡ true → marks.new ≡ row_marked sheet.now row marks.old }
{
    if is_kind(sheet, row, Kind::Unit) {
        unit_apart(sheet, row, marks)
    } else if is_kind(sheet, row, Kind::Class) {
        class_apart(sheet, row, marks)
    } else {
        true
    }
}

// The same of every row. `marks` has a mark for each name, all 0 at first.
pub fn all_apart(sheet: &[u32], n: u32, marks: &mut [u32]) -> bool
    requires { n ≤ 2048 }
    ensures { result ≡ all_unmarked sheet.now n 0 marks.old }
{
    for row in 0..n {
        if !row_apart(sheet, row, marks) {
            return false;
        }
    }
    true
}
