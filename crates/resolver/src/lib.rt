// The public routine: a sheet and its names, resolved into the lent answer words, or refused.
#![tactic(auto)]

ghost use Rattle.std.specs.Prelude.{length};
ghost use Rattle.row_events.specs.Prepared.{Ready};
ghost use Rattle.finish.specs.Settled.{Settled};
ghost use Rattle.walk_space.specs.Room.{RoomFor};
ghost use Rattle.resolver.specs.Plain.{Plain};
ghost use Rattle.resolver.specs.Answered.{Answered};
ghost use Rattle.definition.specs.Outside.{core};
ghost use Rattle.outside.specs.Words.{over};

pub use answer::Answer;
use answer::{refuse, refuse_at};
use finish::finish;
use first_four::first_four;
use outside::plain::core_words;
use resolve_syms::resolve_units;
use walk_space::size::{
    MIDDLE_NODE_WORDS, MIDDLE_NODES, NODE_WORDS, PLAIN_ENTRIES, PLAIN_NAMES, ROWS, SHEET,
    SMALL_NODE_WORDS, SMALL_PLAIN_ENTRIES, SMALL_ROWS, SMALL_SHEET,
};
use walk_space::{is_small, nodes_for};

// The walk, in lent scratch space, and what follows it.
fn resolve_in(
    sheet: &[u32],
    outside: &[u32],
    classes: &mut [u32],
    entries: &mut [u32],
    results: &mut [u32],
    nodes: &mut [u32],
    out: &mut [u32],
) -> Answer
    requires { Ready (over outside.now) sheet.now classes.old entries.old results.old nodes.old }
    ensures { Settled (over outside.now) sheet.now (length out.old) result out.new }
{
    let walk = resolve_units(sheet, outside, classes, entries, results, nodes);
    match walk.done {
        Ok(()) => finish(sheet, outside, results, nodes, walk, out),
        Err(no) => refuse_at(sheet, no, out),
    }
}

// The walk in scratch arrays of these sizes, and what follows it: of classes, open entries, results and nodes.
fn resolve_with<
    const ROWS: usize,
    const ENTRIES: usize,
    const SHEET: usize,
    const NODE_WORDS: usize,
>(sheet: &[u32], outside: &[u32], out: &mut [u32]) -> Answer
    requires { Plain (over outside.now) sheet.now × RoomFor sheet.now PLAIN_NAMES ROWS ENTRIES SHEET NODE_WORDS }
    ensures { Settled (over outside.now) sheet.now (length out.old) result out.new }
{
    let mut classes = [0u32; ROWS];
    let mut entries = [0u32; ENTRIES];
    let mut results = [0u32; SHEET];
    let mut nodes = [0u32; NODE_WORDS];
    resolve_in(
        sheet,
        outside,
        &mut classes,
        &mut entries,
        &mut results,
        &mut nodes,
        out,
    )
}

// A sheet past the first four questions. Its rows and the nodes that they may take choose the scratch space: a small sheet would spend most of its time on clearing
// the largest, 906 KB of words, and a middle one has 172 KB of nodes in place of 688.
fn resolve_sized(sheet: &[u32], outside: &[u32], out: &mut [u32]) -> Answer
    requires { Plain (over outside.now) sheet.now }
    ensures { Settled (over outside.now) sheet.now (length out.old) result out.new }
{
    if is_small(sheet) {
        return resolve_with::<SMALL_ROWS, SMALL_PLAIN_ENTRIES, SMALL_SHEET, SMALL_NODE_WORDS>(
            sheet, outside, out,
        );
    }
    if nodes_for(sheet) <= MIDDLE_NODES {
        return resolve_with::<ROWS, PLAIN_ENTRIES, SHEET, MIDDLE_NODE_WORDS>(sheet, outside, out);
    }
    resolve_with::<ROWS, PLAIN_ENTRIES, SHEET, NODE_WORDS>(sheet, outside, out)
}

// A plain sheet past the first four questions.
fn resolve_plain(sheet: &[u32], out: &mut [u32]) -> Answer
    requires { Plain core sheet.now }
    ensures { Settled core sheet.now (length out.old) result out.new }
{
    let outside = core_words();
    resolve_sized(sheet, &outside, out)
}

// Resolves a sheet with its names into the lent answer words. For every input the answer and every word are those of document 01, and
// where no question gets a no, the closure claim holds of the rows in the words.
pub fn resolve(sheet: &[u32], names: &[u8], out: &mut [u32]) -> Answer
    ensures { Answered sheet.now names.now (length out.old) result out.new }
{
    match first_four(sheet, names) {
        Ok(()) => resolve_plain(sheet, out),
        Err(no) => refuse(no, out),
    }
}
