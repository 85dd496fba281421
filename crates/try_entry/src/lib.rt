// An entry tried over a session that is only read: questions 5 to 22 over what earlier entries left, then 24, and what it would add.
#![tactic(auto)]

ghost use Rattle.std.specs.Prelude.{◌≡◌, ◌*◌, ◌≤◌, length, get_or};
ghost use Rattle.row_events.specs.Prepared.{Ready};
ghost use Rattle.outside.specs.Words.{over};
ghost use Rattle.walk.specs.Ended.{ended};
ghost use Rattle.entry_walk.specs.Laid.{OneUnit, BodyWalked};
ghost use Rattle.try_entry.specs.Tried.{AddedBy, TriedOver};

use answer::{Answer, refuse};
use ast::question::Question;
use entry_classes::count_classes;
use lay_over::count_laid;
use outside::layout;
use repl_unit::resolve_over;
use session_room::{Added, has_room};
use walk::state::Walk;
use words::{word, word_at};

// How far the numbers of one entry's functions and classes lie above those of the entry before.
const ENTRY_NUMBERS: u32 = session::layout::ENTRY_NUMBERS as u32;

// The answer, the walk where it ended, and what the entry adds if it is accepted.
#[derive(Clone, Copy)]
pub struct Tried {
    pub answer: Answer,
    pub walk: Walk,
    pub added: Added,
}

const NOTHING: Added = Added {
    names: 0,
    bytes: 0,
    laid: 0,
    classes: 0,
    members: 0,
};

// How many names stand outside.
pub fn outside_names(outside: &[u32]) -> u32
    ensures { result ≡ length (over outside.now).names }
{
    let end = word(outside, 0, layout::NAMES_END);
    if end == 0 {
        return 0;
    }
    end - 1
}

// How far the next entry raises the numbers of its functions and classes.
pub fn base_of(words: &[u32]) -> u32
    requires { get_or words.now 1 0 ≤ 1000 }
    ensures { (result ≡ 2048 * get_or words.now 1 0) × (result ≤ 2048000) }
{
    ENTRY_NUMBERS * word_at(words, session::layout::ENTRIES)
}

// What an accepted entry adds: `new` names in `bytes` bytes, what stands among the open entries of its walk, and what its answer rows tell of classes.
fn added_by(
    outside: &[u32],
    entries: &[u32],
    count: u32,
    out: &[u32],
    rows: usize,
    new: usize,
    bytes: usize,
) -> Added
    requires { 8 * rows ≤ length out.now }
    ensures { AddedBy (over outside.now) entries.now count out.now rows new bytes result }
{
    let first = outside_names(outside);
    let classes = count_classes(out, rows);
    Added {
        names: new,
        bytes,
        laid: count_laid(entries, first, count) as usize,
        classes: classes.classes,
        members: classes.members,
    }
}

// Tries an entry, whose sheet has the session's name numbers, over the session's words: `outside` is what the session is to it, `new` how many of its names
// are new, in `bytes` bytes. The open entries, results and answer words are left for what comes after it is accepted.
pub fn try_over(
    words: &[u32],
    sheet: &[u32],
    outside: &[u32],
    new: usize,
    bytes: usize,
    classes: &mut [u32],
    entries: &mut [u32],
    results: &mut [u32],
    nodes: &mut [u32],
    out: &mut [u32],
) -> Tried
    requires { (Ready (over outside.now) sheet.now classes.old entries.old results.old nodes.old) × (OneUnit sheet.now)
        × (get_or words.now 1 0 ≤ 1000) }
    ensures { (TriedOver words.now outside.now sheet.now new bytes (length out.old) result out.new)
        × (BodyWalked (over outside.now) sheet.now (ended result.walk entries.new results.new nodes.new)) }
{
    let tried = resolve_over(
        sheet,
        outside,
        base_of(words),
        classes,
        entries,
        results,
        nodes,
        out,
    );
    let (answer, walk) = (tried.answer, tried.walk);
    if answer.number != 0 {
        return Tried {
            answer,
            walk,
            added: NOTHING,
        };
    }
    let env = walk.env;
    let added = added_by(outside, entries, env.count, out, answer.rows, new, bytes);
    if !has_room(words, added) {
        return Tried {
            answer: refuse(Question::SessionRoom, out),
            walk,
            added,
        };
    }
    Tried {
        answer,
        walk,
        added,
    }
}
