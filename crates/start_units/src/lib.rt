// Starts the units of a sheet one after another, each time the lowest of those ready: what comes of it is the order of document 02, F-10.
#![tactic(auto)]

ghost use Rattle.std.specs.Prelude.{◌≡◌, [], ◌∷◌, ◌<◌};
ghost use Rattle.definition.specs.Sheet.{a, rows as rows_of};
ghost use Rattle.start_units.specs.Starting.{Importing, waits_for, WaitsFound, Waits, waiting_from, startable, LowestFound, Unnoted, noted, noted_unit, Importers};
ghost use Rattle.start_units.specs.Starting.{following as following_row, or_past, after_start, Marks, Started};

use ast::column;
use ast::kind::Kind;
use sheet::{kids_of, siblings_after};
use words::{entry_at, is_kind, put_at, put_entry, word};

// Is row `k` an import whose unit has no mark?
#[tactic(auto, unfolding(crate::specs::Starting::waits_for))]
fn waits_for(sheet: &[u32], k: u32, marks: &[u32]) -> bool
    ensures { result ≡ waits_for sheet.now marks.now k }
{
    is_kind(sheet, k, Kind::Import) && entry_at(marks, word(sheet, k, column::A)) == 0
}

// The first import row, from row `from` of a child list on, whose unit has no mark.
fn first_waiting(sheet: &[u32], from: u32, marks: &[u32]) -> Option<u32>
    requires { Importing sheet.now × (from < rows_of sheet.now) }
    ensures { WaitsFound sheet.now marks.now from result }
{
    if from == 0 {
        return None;
    }
    if waits_for(sheet, from, marks) {
        return Some(from);
    }
    for k in siblings_after(sheet, from) {
        if waits_for(sheet, k, marks) {
            return Some(k);
        }
    }
    None
}

// The child of unit `u` from which its imports are looked at: all that it imports before that child has started.
#[tactic(auto, unfolding(crate::specs::Starting::waiting_from))]
fn waiting_from(sheet: &[u32], u: u32, waits: &[u32]) -> u32
    ensures { result ≡ waiting_from sheet.now waits.now u }
{
    let k = entry_at(waits, u);
    if k == 0 {
        word(sheet, u, column::CHILD)
    } else {
        k
    }
}

// Is row `u` a unit that is ready? The import that it waits for is kept, so that no import is looked at again once its unit has started.
fn is_ready(sheet: &[u32], u: u32, marks: &[u32], waits: &mut [u32]) -> bool
    requires { Importing sheet.now × (u < rows_of sheet.now) × Waits sheet.now marks.now waits.old }
    ensures { (result ≡ startable sheet.now marks.now u) × Waits sheet.now marks.now waits.new }
{
    if !is_kind(sheet, u, Kind::Unit) {
        return false;
    }
    if entry_at(marks, u) != 0 {
        return false;
    }
    let from = waiting_from(sheet, u, waits);
    let waiting = first_waiting(sheet, from, marks);
    put_entry(waits, u, waiting.unwrap_or(0));
    waiting.is_none()
}

// The row to look at after row `u` for a unit: after a unit the next one, if there is one; else the row after it.
#[tactic(auto, unfolding(crate::specs::Starting::following))]
fn following(sheet: &[u32], u: u32) -> Option<u32>
    requires { u < 4294967295 }
    ensures { or_past result ≡ following_row sheet.now u }
{
    if !is_kind(sheet, u, Kind::Unit) {
        return Some(u + 1);
    }
    let next = word(sheet, u, column::NEXT);
    if next == 0 { None } else { Some(next) }
}

// The lowest unit from row `start` on that is ready.
fn lowest_ready(sheet: &[u32], start: Option<u32>, marks: &[u32], waits: &mut [u32]) -> Option<u32>
    requires { Importing sheet.now × Waits sheet.now marks.now waits.old }
    ensures { LowestFound sheet.now marks.now (or_past start) result × Waits sheet.now marks.now waits.new }
{
    // After a unit comes the next one, wherever it lies: these rows are no range.
    let mut at = start;
    while let Some(u) = at {
        if sheet.len() / 8 <= u as usize {
            return None;
        }
        if is_ready(sheet, u, marks, waits) {
            return Some(u);
        }
        at = following(sheet, u);
    }
    None
}

// Notes unit `u` at unit `v`, if none is noted there yet.
#[tactic(auto, unfolding(crate::specs::Starting::noted))]
fn note(v: u32, u: u32, low: &mut [u32])
    ensures { low.new ≡ noted u (v ∷ []) low.old }
{
    if entry_at(low, v) == 0 {
        put_entry(low, v, u);
    }
}

// Notes row `u`, if it is a unit, at all that it imports.
fn note_unit(sheet: &[u32], u: u32, low: &mut [u32])
    ensures { low.new ≡ noted_unit sheet.now u low.old }
{
    if !is_kind(sheet, u, Kind::Unit) {
        return;
    }
    for k in kids_of(sheet, u, Kind::Import) {
        note(word(sheet, k, column::A), u, low);
    }
}

// Notes at each unit the lowest that imports it.
fn note_importers(sheet: &[u32], low: &mut [u32])
    requires { Importing sheet.now × Unnoted sheet.now low.old }
    ensures { Importers sheet.now low.new }
{
    for u in 0..(sheet.len() / 8) as u32 {
        note_unit(sheet, u, low);
    }
}

// The row from which the next ready unit is looked for, once `u` has started: a unit below `u` can only have become ready if it imports `u`.
#[tactic(auto, unfolding(crate::specs::Starting::after_start))]
fn after_start(sheet: &[u32], low: &[u32], u: u32) -> Option<u32>
    requires { u < 4294967295 }
    ensures { or_past result ≡ after_start sheet.now low.now u }
{
    let first = entry_at(low, u);
    if first == 0 || u <= first {
        following(sheet, u)
    } else {
        Some(first)
    }
}

// Starts all units that ever get ready, and answers how many they are. Each gets as its mark how many have started with it, and is written into
// the list, as far as that goes.
fn start_all(
    sheet: &[u32],
    low: &[u32],
    marks: &mut [u32],
    waits: &mut [u32],
    list: &mut [u32],
) -> usize
    requires { Importing sheet.now × Importers sheet.now low.now × Marks sheet.now marks.old [] × Waits sheet.now marks.old waits.old }
    ensures { Started sheet.now list.old result marks.new list.new }
{
    let rows = sheet.len() / 8;
    let mut start = Some(0);
    for count in 0..rows {
        match lowest_ready(sheet, start, marks, waits) {
            None => return count,
            Some(u) => {
                put_entry(marks, u, count as u32 + 1);
                put_at(list, count, u);
                start = after_start(sheet, low, u);
            }
        }
    }
    rows
}

// The same in lent tables of zeros.
fn start_in(
    sheet: &[u32],
    low: &mut [u32],
    waits: &mut [u32],
    marks: &mut [u32],
    list: &mut [u32],
) -> usize
    requires { Importing sheet.now × Unnoted sheet.now low.old × Unnoted sheet.now waits.old × Marks sheet.now marks.old [] }
    ensures { Started sheet.now list.old result marks.new list.new }
{
    note_importers(sheet, low);
    start_all(sheet, low, marks, waits, list)
}

// The same, with its own tables.
pub fn start_units(sheet: &[u32], marks: &mut [u32], list: &mut [u32]) -> usize
    requires { Importing sheet.now × Marks sheet.now marks.old [] }
    ensures { Started sheet.now list.old result marks.new list.new }
{
    let mut low = [0u32; 2048];
    let mut waits = [0u32; 2048];
    start_in(sheet, &mut low, &mut waits, marks, list)
}
