// The climb from a class to its parents, which finds circles: the Rust's `process` as a loop over a run of parent numbers.
#![tactic(auto)]

ghost use Rattle.std.specs.Prelude.{◌≡◌};
ghost use Rattle.climb.specs.Process.{is_pending, in_lineage, step_at, marks_after, run_size, leaving, climbed, climbed_all};

use words::{entry_at, one_more, put_entry};

// Place `c` of a run of parent numbers tells the parent of class `c`: a class of the run by its place, a parent without a record by NO_RECORD. Any
// other number past the run, as ENDS, ends the climb: there is no parent, or one that is not of the run and has a record. The parents are words:
// as an enum each would take twice the room, and the caller has 2,048 of them on its stack.
pub const NO_RECORD: u32 = 4294967295;

pub const ENDS: u32 = 4294967294;

// Why a climb does not end past the last parent: a class is met for the second time, or the parent of a class has no record.
#[derive(Clone, Copy, Debug, PartialEq, Eq)]
pub enum ClimbError {
    Circle(u32),
    NoRecord(u32),
}

// How many classes a run has: those with a parent number and a mark, and a number below ENDS.
fn run_size(parents: &[u32], marks: &[u32]) -> u32
    ensures { result ≡ run_size parents.now marks.now }
{
    parents.len().min(marks.len()).min(ENDS as usize) as u32
}

// Is a class still to be processed? It has no mark, or that of this climb.
fn is_pending(marks: &[u32], size: u32, mark: u32, c: u32) -> bool
    ensures { result ≡ is_pending size mark marks.now c }
{
    if c < size {
        let m = entry_at(marks, c);
        m == 0 || m == mark
    } else {
        false
    }
}

// Was a class met in this climb?
fn in_lineage(marks: &[u32], mark: u32, c: u32) -> bool
    ensures { result ≡ in_lineage mark marks.now c }
{
    entry_at(marks, c) == mark
}

// One step of the climb, what `process` does at a class before it goes on to the parent: the parent, or none where the climb ends.
fn climb_step(
    parents: &[u32],
    marks: &mut [u32],
    size: u32,
    mark: u32,
    c: u32,
) -> Result<Option<u32>, ClimbError>
    ensures { (result ≡ step_at parents.now size mark marks.old c)
        × (marks.new ≡ marks_after mark marks.old c result) }
{
    if !is_pending(marks, size, mark, c) {
        return Ok(None);
    }
    if in_lineage(marks, mark, c) {
        return Err(ClimbError::Circle(c));
    }
    let parent = entry_at(parents, c);
    if parent == NO_RECORD {
        return Err(ClimbError::NoRecord(c));
    }
    put_entry(marks, c, mark);
    Ok(Some(parent))
}

// Climbs from class `start`. The classes met get the mark `start + 1`, so that marks need no clearing between climbs. A class with another mark was
// met by an earlier climb, and is not climbed again. A circle of three entered from outside, over the run [1, 2, 3, 1] from class 0:
//
//     c = 0   marks [0, 0, 0, 0]   Ok(Some(1))
//     c = 1   marks [1, 0, 0, 0]   Ok(Some(2))
//     c = 2   marks [1, 1, 0, 0]   Ok(Some(3))
//     c = 3   marks [1, 1, 1, 0]   Ok(Some(1))
//     c = 1   marks [1, 1, 1, 1]   Err(Circle(1))
pub fn climb(parents: &[u32], marks: &mut [u32], start: u32) -> Result<(), ClimbError>
    ensures { leaving result marks.new ≡ climbed parents.now marks.old start }
{
    let size = run_size(parents, marks);
    let mark = one_more(start);
    let mut c = start;
    loop {
        match climb_step(parents, marks, size, mark, c)? {
            Some(parent) => c = parent,
            None => return Ok(()),
        }
    }
}

// Climbs from each class of a run in turn, up to the first that is refused.
pub fn climb_all(parents: &[u32], marks: &mut [u32]) -> Result<(), ClimbError>
    ensures { leaving result marks.new ≡ climbed_all parents.now marks.old }
{
    for c in 0..run_size(parents, marks) {
        climb(parents, marks, c)?;
    }
    Ok(())
}
