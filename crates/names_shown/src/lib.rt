// How many different names a session shows (document 02, F-8), counted over all its declarations: each name once, by a table of marks.
#![tactic(auto)]

ghost use Rattle.std.specs.Prelude.{◌≡◌, List, [], ◌∷◌, ◌+◌, ◌≤◌, length, get_or, replicate};
ghost use Rattle.definition.specs.Basics.{bit};
ghost use Rattle.definition.specs.Meaning.{Named};
ghost use Rattle.definition.specs.Outside.{core};
ghost use Rattle.session_outside.specs.Written.{firsts, names_below, visible_names};

use session::layout;
use session::layout::MARKS;
use session_outside::runs::SessionRuns;
use words::{entry_at, put_entry, word_at};

// The core names are numbers 1 to 9.
const LAST_CORE: u32 = 9;

// Marks a name. Had it no mark? One that has a mark keeps it.
#[tactic(auto, using(crate::proofs::CountLaws::known_counted, crate::proofs::CountLaws::new_counted))]
fn mark_name(name: u32, marks: &mut [u32]) -> bool
    ensures { (y : Named) (ys : List Named) → name ≡ y.name
        → bit result + length (firsts marks.new ys) ≡ length (firsts marks.old (y ∷ ys)) }
{
    if entry_at(marks, name) != 0 {
        return false;
    }
    put_entry(marks, name, 1);
    true
}

// Counts the names of the declarations. They go from the latest back, as the definition lists the visible names; the number would be the same in any order.
fn count_declared(runs: SessionRuns<'_>, marks: &mut [u32]) -> u32
    ensures { (result ≤ 4096) × (result + length (firsts marks.new core.names)
        ≡ length (firsts marks.old (names_below runs.entry.words.now (get_or runs.entry.words.now 5 0)))) }
{
    let mut count: u32 = 0;
    for i in (0..word_at(runs.words, layout::DECLARATIONS) as usize).rev() {
        let place = layout::DECLARATION_ROWS + layout::DECLARATION_WORDS * i;
        count += mark_name(word_at(runs.words, place), marks) as u32;
    }
    count
}

// Counts the core names that no declaration has.
fn count_core(marks: &mut [u32]) -> u32
    ensures { (result ≤ 9) × (result ≡ length (firsts marks.old core.names)) }
{
    let mut count: u32 = 0;
    for name in 1..=LAST_CORE {
        count += mark_name(name, marks) as u32;
    }
    count
}

// Counts all, with lent marks.
#[tactic(auto, using(crate::proofs::CountLaws::all_counted))]
fn count_marked(runs: SessionRuns<'_>, marks: &mut [u32]) -> u32
    requires { marks.old ≡ replicate 1049 0 }
    ensures { result ≡ length (visible_names runs.entry.words.now) }
{
    let declared = count_declared(runs, marks);
    declared + count_core(marks)
}

// How many different names are visible.
pub fn count_shown(runs: SessionRuns<'_>) -> u32
    ensures { result ≡ length (visible_names runs.entry.words.now) }
{
    let mut marks = [0u32; MARKS];
    count_marked(runs, &mut marks)
}
