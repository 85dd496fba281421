// Question 23 of a session in lent words and bytes: its declarations, classes and members. Names (crate session_names), counts, rows of entries and class
// numbers (crate session_rows) are asked about first; a class is then found by halving. Names on show are counted last (crate names_shown).
#![tactic(auto)]

ghost use Rattle.std.specs.Prelude.{◌≡◌, length, get_or, eqb};
ghost use Rattle.session_rows.specs.Rows.{Limited, Ordered};
ghost use Rattle.session_outside.specs.Written.{visible_names};
ghost use Rattle.session_check.specs.Checked.{RunsChecked, Checked};
ghost use Rattle.session_check.specs.Clauses.{Under, entries_right, numbers_right};

use entry::Entry;
use name_index::NameIndex;
use session::layout;
use session::layout::MARKS;
use session::lent::LentSession;
use session_names::space::NameSpace;
use session_outside::runs::SessionRuns;
use session_rows::number_at;

mod entry;

// Are all entries as they should be? The marks, one for each number of a name, are all 0 at first, and written by each entry's test.
fn entries_marked(words: &[u32], marks: &mut [u32; MARKS]) -> bool
    requires { Ordered words.now × Under marks.old 1 }
    ensures { result ≡ entries_right words.now }
{
    let entries = number_at(words, layout::ENTRIES);
    for number in 0..entries {
        let entry = Entry { words, number };
        if !entry.fits(marks) {
            return false;
        }
    }
    true
}

// The same, with marks of its own.
fn entries_fit(words: &[u32]) -> bool
    requires { Ordered words.now }
    ensures { result ≡ entries_right words.now }
{
    let mut marks = [0u32; MARKS];
    entries_marked(words, &mut marks)
}

// Are all numbers of the session as they should be?
#[tactic(auto, unfolding(crate::specs::Clauses::numbers_right), using(session_rows::proofs::OrderLaws::in_order))]
fn numbers_fit(words: &[u32], starts: &[u32]) -> bool
    requires { Limited words.now }
    ensures { result ≡ numbers_right words.now starts.now }
{
    session_rows::order_fits(words, starts) && entries_fit(words)
}

// All of question 23 but the names on show. The listed names with their index, if it gets a yes.
fn check_runs<'a>(session: LentSession<'a>, space: NameSpace<'a>) -> Option<NameIndex<'a>>
    ensures { RunsChecked session.entry.words.now session.entry.bytes.now result }
{
    if !session_rows::counts_fit(session) {
        return None;
    }
    let list = session_names::read_names(session, space)?;
    if !numbers_fit(session.words, list.listed.table) {
        return None;
    }
    Some(list)
}

// Is the number of names on show that of a full recount?
fn shown_fits(runs: SessionRuns<'_>) -> bool
    ensures { result ≡ eqb (get_or runs.entry.words.now 2 0) (length (visible_names runs.entry.words.now)) }
{
    words::word_at(runs.words, layout::SHOWN) == names_shown::count_shown(runs)
}

// Question 23 of a session. Its listed names with their index, if it gets a yes.
#[tactic(auto, using(session_names::proofs::NameLaws::listing_no, session_outside::proofs::ReadableLaws::runs_readable, crate::proofs::WholeLaws::runs_refuse, crate::proofs::WholeLaws::shown_decide))]
pub fn check_session<'a>(session: LentSession<'a>, space: NameSpace<'a>) -> Option<NameIndex<'a>>
    ensures { Checked session.entry.words.now session.entry.bytes.now result }
{
    let list = check_runs(session, space)?;
    let words = session.words;
    if !shown_fits(SessionRuns { words }) {
        return None;
    }
    Some(list)
}
