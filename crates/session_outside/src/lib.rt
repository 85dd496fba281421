// What a session is to an entry, written as the words of an outside, from which the entry's walk reads it.
#![tactic(auto)]

ghost use Rattle.std.specs.Prelude.{◌≡◌, true, List, ℕ, ◌≤◌, length};
ghost use Rattle.definition.specs.Outside.{based};
ghost use Rattle.outside.specs.Words.{over};
ghost use Rattle.session.specs.Session.{outside_of};
ghost use Rattle.session.specs.Words.{whole, session_in, session_fits};
ghost use Rattle.session_outside.specs.Readable.{outside_size};

use members::member_runs;
use records::record_rows;
use rows::put_row;
use runs::SessionRuns;
use session::layout::MARKS;
use visible::name_rows;
use words::entry_at;

mod layout;
mod members;
mod records;
mod rows;
pub mod runs;
mod visible;

// The number of the last name, if as many are listed as may be.
const LAST_NAME: usize = MARKS - 1;

// The names, records and fields of the core.
const CORE_NAMES: usize = 9;

const CORE_RECORDS: u32 = 3;

const CORE_FIELDS: usize = 14;

// How many words suffice for the outside, by the session's counts alone: no more names are visible than there are numbers, and no member takes more
// than three words.
pub fn outside_size(session: &[u32]) -> usize
    ensures { result ≡ outside_size session.now }
{
    let laid = entry_at(session, layout::LAID_COUNT) as usize + CORE_NAMES;
    let names = laid.min(LAST_NAME);
    let records = entry_at(session, layout::CLASS_COUNT) as usize + CORE_RECORDS as usize;
    8 * (1 + names + records) + 3 * (entry_at(session, layout::MEMBER_COUNT) as usize) + CORE_FIELDS
}

// Writes what the session is to its next entry: rows of names from row 1 on, rows of records, the members of these, and row 0, which tells where the
// rows end.
pub fn outside_words(runs: SessionRuns<'_>, out: &mut [u32])
    requires { outside_size runs.words.now ≤ length out.old }
    ensures { (n : List ℕ) → session_fits whole runs.entry.words.now n ≡ true
        → over out.new ≡ based (outside_of (session_in whole runs.entry.words.now n)) 0 }
{
    let names_end = name_rows(runs, out);
    let records_end = names_end + entry_at(runs.words, layout::CLASS_COUNT) + CORE_RECORDS;
    record_rows(runs, names_end, 8 * records_end, out);
    member_runs(runs, 8 * records_end, out);
    put_row(out, 0, [names_end, records_end, 0, 0, 0, 0, 0, 0]);
}
