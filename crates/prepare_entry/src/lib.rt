// An entry made ready for its walk, over a session that is only read: what is asked of session and entry before the walk, the entry's names by the session's
// numbers, and what the walk reads, the sheet with these numbers and what the session is to it. Entering and previewing begin with it.
#![tactic(auto)]

ghost use Rattle.std.specs.Prelude.{◌≡◌, true, List, ℕ, ◌≤◌, length, get_or};
ghost use Rattle.definition.specs.Outcome.{rows_fit};
ghost use Rattle.session.specs.Words.{whole, session_fits};
ghost use Rattle.session_outside.specs.Readable.{outside_size};
ghost use Rattle.entry_ready.specs.Asked.{entry_no};
ghost use Rattle.prepare_entry.specs.Told.{PreparedFor, Written};

use ast::name;
use ast::question::Question;
use entry_names::{entry_sheet, number_names};
use entry_ready::ask_entry;
use session::lent::LentSession;
use session_check::check_session;
use session_names::space::{NameSpace, PLACES, STARTS};
use session_outside::outside_words;
use session_outside::runs::SessionRuns;

// The words of what a session is to an entry at most, and of a small session: what is entered or previewed chooses its scratch space by them, and by its sheet
// (sizes in crate `walk_space`).
pub const LARGEST_OUTSIDE: usize = 41198;

pub const SMALL_OUTSIDE: usize = 2048;

// How many names an entry lists, how many of them are new to the session, in how many bytes with their ends, and the number of the first new one.
#[derive(Clone, Copy)]
pub struct Prepared {
    pub names: usize,
    pub new: usize,
    pub bytes: usize,
    pub first: u32,
}

// Asks session and entry what is asked before the walk, in the order of document 02, and tells the entry's names by the session's numbers. The error is the
// first question that gets a no.
pub fn prepare(
    session: LentSession<'_>,
    sheet: &[u32],
    names: &[u8],
    numbers: &mut [u32],
) -> Result<Prepared, Question>
    requires { 1024 ≤ length numbers.old }
    ensures { PreparedFor session.entry.words.now session.entry.bytes.now sheet.now names.now result numbers.new }
{
    let mut starts = [0u32; STARTS];
    let mut index = [0u32; PLACES];
    let space = NameSpace {
        starts: &mut starts,
        index: &mut index,
    };
    let Some(list) = check_session(session, space) else {
        return Err(Question::Session);
    };
    ask_entry(session.words, sheet, names)?;
    let told = number_names(list, names, numbers);
    Ok(Prepared {
        names: told.count,
        new: told.new,
        bytes: told.bytes,
        first: (name::LAST_FIXED + 1 + list.listed.count()) as u32,
    })
}

// Writes what the walk of an entry reads: what the session is to it, and its sheet with the session's name numbers.
pub fn write_entry(
    words: &[u32],
    sheet: &[u32],
    numbers: &[u32],
    outside: &mut [u32],
    copy: &mut [u32],
)
    requires { ((n : List ℕ) × session_fits whole words.now n ≡ true) × (outside_size words.now ≤ length outside.old)
        × (rows_fit sheet.now ≡ true) × (length copy.old ≡ length sheet.now) }
    ensures { Written words.now sheet.now numbers.now outside.new copy.new }
{
    outside_words(SessionRuns { words }, outside);
    entry_sheet(sheet, numbers, copy);
}
