// An entry past question 23, resolved over what stands outside it: the walk, what follows it, and the numbers of its answer rows.
#![tactic(auto)]

ghost use Rattle.std.specs.Prelude.{◌≡◌, List, ℕ, ◌≤◌, length};
ghost use Rattle.machine.specs.Reads.{PastFour, Walked};
ghost use Rattle.row_events.specs.Prepared.{Ready};
ghost use Rattle.outside.specs.Words.{over};
ghost use Rattle.ast.specs.Refused.{refusal_in};
ghost use Rattle.walk.specs.Ended.{ended};
ghost use Rattle.entry_walk.specs.Laid.{OneUnit, BodyWalked};
ghost use Rattle.definition.specs.Outside.{based};
ghost use Rattle.finish.specs.Settled.{Settled};

use answer::{Answer, refuse_at};
use entry_walk::resolve_entry;
use finish::finish;
use raise::raise_rows;
use walk::state::Walk;

// The answer, and the walk where it ended: its next global, and the open entries with what was declared.
#[derive(Clone, Copy)]
pub struct Resolved {
    pub answer: Answer,
    pub walk: Walk,
}

// What follows the walk of an entry that no question of it refused. A refusal has no rows to raise.
fn finish_over(
    sheet: &[u32],
    outside: &[u32],
    results: &[u32],
    nodes: &[u32],
    base: u32,
    walk: Walk,
    out: &mut [u32],
) -> Answer
    requires { (PastFour (over outside.now) sheet.now)
        × ((entries : List ℕ) → Walked (over outside.now) sheet.now (ended walk entries results.now nodes.now))
        × ((refusal_in walk.done).number ≡ 0) × (base ≤ 2048000) }
    ensures { Settled (based (over outside.now) base) sheet.now (length out.old) result out.new }
{
    let answer = finish(sheet, outside, results, nodes, walk, out);
    raise_rows(out, answer.rows, base);
    answer
}

// Resolves an entry in lent scratch space, its functions and classes raised by `base`.
pub fn resolve_over(
    sheet: &[u32],
    outside: &[u32],
    base: u32,
    classes: &mut [u32],
    entries: &mut [u32],
    results: &mut [u32],
    nodes: &mut [u32],
    out: &mut [u32],
) -> Resolved
    requires { (Ready (over outside.now) sheet.now classes.old entries.old results.old nodes.old) × (OneUnit sheet.now) × (base ≤ 2048000) }
    ensures { (Settled (based (over outside.now) base) sheet.now (length out.old) result.answer out.new)
        × (BodyWalked (over outside.now) sheet.now (ended result.walk entries.new results.new nodes.new)) }
{
    let walk = resolve_entry(sheet, outside, classes, entries, results, nodes);
    let answer = match walk.done {
        Ok(()) => finish_over(sheet, outside, results, nodes, base, walk, out),
        Err(no) => refuse_at(sheet, no, out),
    };
    Resolved { answer, walk }
}
