// The lowest unit on a circle of imports: a chain of imports leads from it back to it (document 02, F-10).
//
// A search from every unit would look at every import again and again. So each unit gets a rank first (`circle_ranks`). If ranks rise along no
// import, a unit all of whose imports have lower ranks is on no circle, and no search starts there. Nothing is promised of the ranks, and
// nothing is taken on trust: whether they rise is looked at here. With ranks as they should be, the first search comes back.
#![tactic(auto)]

ghost use Rattle.std.specs.Prelude.{◌≡◌, true, ◌&&◌, List, [], ◌∷◌, ℕ, ◌<◌, ◌≤◌, T, length, get_or};
ghost use Rattle.definition.specs.Basics.{◌∈?◌};
ghost use Rattle.definition.specs.Kind.{UNIT};
ghost use Rattle.definition.specs.Sheet.{rows as rows_of, is};
ghost use Rattle.std.specs.List.{find};
ghost use Rattle.unit_order.specs.Order.{units, imports_of, circles};
ghost use Rattle.start_units.specs.Starting.{Importing};
ghost use Rattle.import_circle.specs.Search.{Holds, added, Falling};

use ast::column;
use ast::kind::Kind;
use circle_ranks::rank_circles;
use sheet::kids_of;
use words::{entry_at, is_kind, put_entry, word};

// Marks, queue and count stay parameters: as a struct they would need a view of their own in every fact about what is found.
//
// Adds unit `v` to those found, if it is not among them. `count` units are found; they have marks, and stand first in the queue.
fn add(v: u32, count: u32, marks: &mut [u32], queue: &mut [u32]) -> u32
    requires { (v < length marks.old) × (length marks.old ≤ 2048) }
    ensures { (found : List ℕ) → Holds marks.old queue.old count found
        → Holds marks.new queue.new result (added found (v ∷ [])) }
{
    if entry_at(marks, v) != 0 {
        return count;
    }
    put_entry(marks, v, 1);
    put_entry(queue, count, v);
    count.saturating_add(1)
}

// Adds all that unit `u` imports.
fn add_imports(sheet: &[u32], u: u32, count: u32, marks: &mut [u32], queue: &mut [u32]) -> u32
    requires { Importing sheet.now × T (u ∈? units sheet.now) × (rows_of sheet.now ≤ length marks.old) × (length marks.old ≤ 2048) }
    ensures { (found : List ℕ) → Holds marks.old queue.old count found
        → Holds marks.new queue.new result (added found (imports_of sheet.now u)) }
{
    let mut n = count;
    for k in kids_of(sheet, u, Kind::Import) {
        n = add(word(sheet, k, column::A), n, marks, queue);
    }
    n
}

// Is unit `u` on a circle? Finds all that a chain of imports leads to from `u`, until that is `u` itself.
fn comes_back(sheet: &[u32], u: u32, marks: &mut [u32], queue: &mut [u32]) -> bool
    requires { Importing sheet.now × T (u ∈? units sheet.now) × (rows_of sheet.now ≤ length marks.old) × (length marks.old ≤ 2048)
        × Holds marks.old queue.old 0 [] }
    ensures { result ≡ circles sheet.now u }
{
    let mut count = add_imports(sheet, u, 0, marks, queue);
    let mut passed: u32 = 0;
    // The queue grows while it is passed through, so its end is no range's.
    while passed < count {
        if entry_at(marks, u) != 0 {
            return true;
        }
        let v = entry_at(queue, passed);
        count = add_imports(sheet, v, count, marks, queue);
        passed += 1;
    }
    entry_at(marks, u) != 0
}

// The same, with its own tables.
fn is_circling(sheet: &[u32], u: u32) -> bool
    requires { Importing sheet.now × T (u ∈? units sheet.now) }
    ensures { result ≡ circles sheet.now u }
{
    let mut marks = [0u32; 2048];
    let mut queue = [0u32; 2048];
    comes_back(sheet, u, &mut marks, &mut queue)
}

// The highest rank of all that unit `u` imports, or 0.
fn highest_import(sheet: &[u32], u: u32, ranks: &[u32]) -> u32
    ensures { (v : ℕ) → T (v ∈? imports_of sheet.now u) → get_or ranks.now v 0 ≤ result }
{
    let mut rank = 0u32;
    for k in kids_of(sheet, u, Kind::Import) {
        rank = rank.max(entry_at(ranks, word(sheet, k, column::A)));
    }
    rank
}

// Does no unit import one of a higher rank?
fn ranks_fall(sheet: &[u32], ranks: &[u32]) -> bool
    requires { Importing sheet.now }
    ensures { result ≡ true → Falling sheet.now ranks.now }
{
    for u in 0..(sheet.len() / 8) as u32 {
        if entry_at(ranks, u) < highest_import(sheet, u, ranks) {
            return false;
        }
    }
    true
}

// Is row `u` a unit on a circle? Where ranks fall, the search is only made from a unit that imports one of its own rank.
fn circles_at(sheet: &[u32], u: u32, fall: bool, ranks: &[u32]) -> bool
    requires { Importing sheet.now × (u < rows_of sheet.now) × (fall ≡ true → Falling sheet.now ranks.now) }
    ensures { result ≡ (is sheet.now UNIT u && circles sheet.now u) }
{
    if !is_kind(sheet, u, Kind::Unit) {
        return false;
    }
    if fall {
        if highest_import(sheet, u, ranks) < entry_at(ranks, u) {
            return false;
        }
    }
    is_circling(sheet, u)
}

// The lowest unit on a circle, whatever the ranks are.
fn lowest_by(sheet: &[u32], ranks: &[u32]) -> Option<u32>
    requires { Importing sheet.now }
    ensures { result ≡ find (circles sheet.now) (units sheet.now) }
{
    let fall = ranks_fall(sheet, ranks);
    for u in 0..(sheet.len() / 8) as u32 {
        if circles_at(sheet, u, fall, ranks) {
            return Some(u);
        }
    }
    None
}

// The lowest unit on a circle. `ranks` tells of each of the `started` units that are on none how many have started with it, and 0 of all others.
pub fn lowest_circling(sheet: &[u32], started: u32, ranks: &mut [u32]) -> Option<u32>
    requires { Importing sheet.now }
    ensures { result ≡ find (circles sheet.now) (units sheet.now) }
{
    rank_circles(sheet, started, ranks);
    lowest_by(sheet, ranks)
}
