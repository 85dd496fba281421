// What follows a walk that no question refused: inheritance and constructor calls, then the answer rows.
#![tactic(auto)]

ghost use Rattle.std.specs.Prelude.{◌≡◌, List, [], ◌∷◌, ℕ, length};
ghost use Rattle.definition.specs.Question.{first_no};
ghost use Rattle.machine.specs.Reads.{PastFour, StoreReads, Walked};
ghost use Rattle.after.specs.Inherited.{classes_refusal, calls_refusal};
ghost use Rattle.ast.specs.Refused.{refusal_in};
ghost use Rattle.store.specs.Stored.{store_of};
ghost use Rattle.walk.specs.Ended.{ended};
ghost use Rattle.finish.specs.Settled.{Settled, Accepted};
ghost use Rattle.outside.specs.Words.{over};

use answer::{Answer, accept, refuse_at};
use answer_rows::emit_rows;
use ast::question::Refusal;
use class_names::tables::Tables;
use inherit::later_refusal;
use store::nodes::Store;
use walk::state::Walk;

// The first no of questions 18 to 21, with marks of the classes climbed through for 2,048 rows.
fn ask_later(
    sheet: &[u32],
    outside: &[u32],
    results: &[u32],
    nodes: &[u32],
    calls: u32,
) -> Result<(), Refusal>
    requires { PastFour (over outside.now) sheet.now }
    ensures { (o : Store) → o.calls ≡ calls → refusal_in result
        ≡ first_no (classes_refusal (over outside.now) sheet.now
        (store_of o results.now nodes.now) ∷ calls_refusal (over outside.now) sheet.now
        (store_of o results.now nodes.now) ∷ []) }
{
    let mut climbed = [0u32; 2048];
    later_refusal(sheet, outside, results, nodes, &mut climbed, calls)
}

// The answer rows of a sheet that no question up to 21 refuses, and question 22.
fn write_answer(
    sheet: &[u32],
    outside: &[u32],
    results: &[u32],
    nodes: &[u32],
    store: Store,
    globals: u32,
    out: &mut [u32],
) -> Answer
    requires { (PastFour (over outside.now) sheet.now)
        × (StoreReads (over outside.now) sheet.now (store_of store results.now nodes.now))
        × (Accepted (over outside.now) sheet.now (store_of store results.now nodes.now) globals) }
    ensures { Settled (over outside.now) sheet.now (length out.old) result out.new }
{
    let tables = Tables {
        sheet,
        outside,
        results,
        nodes,
    };
    let n = emit_rows(tables, store, out);
    accept(n, globals, out)
}

// Settles a sheet whose walk no question refused: by the first no of questions 18 to 22, or with its answer rows.
pub fn finish(
    sheet: &[u32],
    outside: &[u32],
    results: &[u32],
    nodes: &[u32],
    walk: Walk,
    out: &mut [u32],
) -> Answer
    requires { (PastFour (over outside.now) sheet.now)
        × ((entries : List ℕ) → Walked (over outside.now) sheet.now (ended walk entries results.now nodes.now))
        × ((refusal_in walk.done).number ≡ 0) }
    ensures { Settled (over outside.now) sheet.now (length out.old) result out.new }
{
    let (store, env) = (walk.store, walk.env);
    match ask_later(sheet, outside, results, nodes, store.calls) {
        Ok(()) => write_answer(sheet, outside, results, nodes, store, env.globals, out),
        Err(no) => refuse_at(sheet, no, out),
    }
}
