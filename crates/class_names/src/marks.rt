// The rows of the classes that have children, marked in one pass over the sheet.
ghost use Rattle.std.specs.Prelude.{◌≡◌, ℕ, ◌≤◌, length, get_or};
ghost use Rattle.definition.specs.Sheet.{rows};
ghost use Rattle.class_names.specs.Names.{ParentMarks, mark_parent};

use ast::FIRST_CLASS;
use ast::kind::Kind;
use store::result;
use words::{is_kind, put_entry, word};

// Marks the row of the parent of `row`, if `row` is a class whose parent is of the sheet.
#[tactic(auto, unfolding(crate::specs::Names::mark_parent))]
fn mark_parent(sheet: &[u32], results: &[u32], row: u32, subclassed: &mut [u32])
    ensures { subclassed.new ≡ mark_parent sheet.now results.now row subclassed.old }
{
    if is_kind(sheet, row, Kind::Class) {
        let parent = word(results, row, result::ONE);
        if parent >= FIRST_CLASS {
            put_entry(subclassed, parent - FIRST_CLASS, 1);
        }
    }
}

// Marks the rows of all classes that have children.
pub fn mark_parents(sheet: &[u32], results: &[u32], subclassed: &mut [u32])
    requires { (length sheet.now ≤ 16384) × (rows sheet.now ≤ length subclassed.old) × ((j : ℕ) → get_or subclassed.old j 0 ≡ 0) }
    ensures { ParentMarks sheet.now results.now subclassed.new }
{
    for row in 0..(sheet.len() / 8) as u32 {
        mark_parent(sheet, results, row, subclassed);
    }
}
