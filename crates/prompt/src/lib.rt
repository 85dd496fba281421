// Entries at a prompt (document 02, F-1): a sheet entered into a session that stands in lent words and bytes.
#![tactic(auto)]

ghost use Rattle.std.specs.Prelude.{◌≡◌, suc, length};
ghost use Rattle.session.specs.Session.{all_names};
ghost use Rattle.session.specs.Words.{whole, session_in};
ghost use Rattle.prepare_entry.specs.Told.{Told};
ghost use Rattle.prompt.specs.Entered.{Entered};

use answer::{Answer, refuse};
use entry_names::{append_names, entry_number};
use entry_space::enter_sheet;
use names_shown::count_shown;
use prepare_entry::{Prepared, prepare};
use session::layout;
use session::lent::LentSession;
use session_outside::runs::SessionRuns;
use words::{put_at, word_at};

// An entry that is prepared, its names told by the session's numbers. Words and bytes are lent apart: they are written by routines that take one of them.
fn enter_told(
    words: &mut [u32],
    bytes: &mut [u8],
    sheet: &[u32],
    names: &[u8],
    numbers: &[u32],
    entry: Prepared,
    out: &mut [u32],
) -> Answer
    requires { (Told words.old sheet.now numbers.now entry.new entry.bytes bytes.old names.now)
        × (entry.first ≡ suc (length (all_names (session_in whole words.old bytes.old)))) }
    ensures { Entered words.old bytes.old sheet.now names.now (length out.old) result out.new
        words.new bytes.new }
{
    let at = layout::FIXED_BYTES + word_at(words, layout::NAME_BYTES) as usize;
    let mut answer = enter_sheet(words, sheet, numbers, entry.new, entry.bytes, out);
    answer.name = entry_number(numbers, entry.first - 1 + entry.new as u32, answer.name);
    if answer.number != 0 {
        return answer;
    }
    append_names(names, numbers, entry.first, bytes, at);
    let shown = count_shown(SessionRuns { words });
    put_at(words, layout::SHOWN, shown);
    answer
}

// Enters a sheet with its names into the session of the lent words and bytes, its answer rows into the lent answer words. For every input the answer, every
// word of the three and every byte of the session are those of document 02, and where no question gets a no, the closure claim holds of the entry.
pub fn enter(
    words: &mut [u32],
    bytes: &mut [u8],
    sheet: &[u32],
    names: &[u8],
    out: &mut [u32],
) -> Answer
    ensures { Entered words.old bytes.old sheet.now names.now (length out.old) result out.new
        words.new bytes.new }
{
    let mut numbers = [0u32; 1024];
    let session = LentSession { words, bytes };
    let entry = match prepare(session, sheet, names, &mut numbers) {
        Ok(entry) => entry,
        Err(no) => return refuse(no, out),
    };
    let listed = entry.names;
    enter_told(words, bytes, sheet, names, &numbers[..listed], entry, out)
}
