// The class of every row of a sheet, in a table that one pass over the rows fills.
#![tactic(auto)]

ghost use Rattle.std.specs.Prelude.{◌≡◌, ◌≤◌, length};
ghost use Rattle.definition.specs.Sheet.{rows};
ghost use Rattle.definition.specs.Outside.{Outside};
ghost use Rattle.machine.specs.Reads.{PastFour};
ghost use Rattle.classes.specs.Table.{kids_class, linked, row_done, Clear, ClassTable};

use ast::column;
use ast::kind::Kind;
use words::{entry_at, is_kind, put_entry, word};

// Writes the entry of row `i`, unless the link is 0.
#[tactic(auto, unfolding(crate::specs::Table::linked))]
fn put_linked(classes: &mut [u32], i: u32, x: u32)
    ensures { classes.new ≡ linked i x classes.old }
{
    if i != 0 {
        put_entry(classes, i, x);
    }
}

// The class of the children of `row`: the row itself, or the class that a literal names, or 0.
fn kids_class(sheet: &[u32], row: u32) -> u32
    ensures { result ≡ kids_class sheet.now row }
{
    if is_kind(sheet, row, Kind::Class) {
        row
    } else if is_kind(sheet, row, Kind::Literal) {
        word(sheet, row, column::A)
    } else {
        0
    }
}

// Writes the entries of `row`'s child and next. The next has the class of the row itself.
#[tactic(auto, unfolding(crate::specs::Table::row_done))]
fn fill_row(sheet: &[u32], row: u32, classes: &mut [u32])
    ensures { classes.new ≡ row_done sheet.now row classes.old }
{
    let child = word(sheet, row, column::CHILD);
    let next = word(sheet, row, column::NEXT);
    put_linked(classes, child, kids_class(sheet, row));
    put_linked(classes, next, entry_at(classes, row));
}

// Fills a table of zeros. Links go to higher rows, so the entry of a row is final when the row is reached.
pub fn class_table(sheet: &[u32], classes: &mut [u32])
    requires { ((O : Outside) × PastFour O sheet.now) × (rows sheet.now ≤ length classes.old) × (Clear classes.old) }
    ensures { ClassTable sheet.now classes.new }
{
    for row in 0..(sheet.len() / 8) as u32 {
        fill_row(sheet, row, classes);
    }
}
