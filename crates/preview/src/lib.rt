// A preview (document 02, F-5): what entering a sheet into a session would answer. The session is lent for reading alone, so it stays as it is.
#![tactic(auto)]

ghost use Rattle.std.specs.Prelude.{◌≡◌, List, ℕ, suc, ◌≤◌, length};
ghost use Rattle.session.specs.Session.{all_names};
ghost use Rattle.session.specs.Words.{whole, session_in};
ghost use Rattle.walk_space.specs.Room.{RoomFor};
ghost use Rattle.session_outside.specs.Readable.{outside_size};
ghost use Rattle.prepare_entry.specs.Told.{Told};
ghost use Rattle.preview.specs.Previewed.{AskedTold, Previewed};

use answer::{Answer, refuse};
use entry_names::entry_number;
use prepare_entry::{LARGEST_OUTSIDE, Prepared, SMALL_OUTSIDE, prepare, write_entry};
use session::lent::LentSession;
use session_outside::outside_size;
use try_entry::try_over;
use walk_space::is_small;
use walk_space::size::{
    ENTRIES, ENTRY_NAMES, NODE_WORDS, ROWS, SHEET, SMALL_ENTRIES, SMALL_NODE_WORDS, SMALL_ROWS,
    SMALL_SHEET,
};

// Tries a sheet in scratch arrays of these sizes: what the session is to it, classes, open entries, results and copy, nodes.
fn try_with<
    const OUTSIDE: usize,
    const ROWS: usize,
    const ENTRIES: usize,
    const SHEET: usize,
    const NODE_WORDS: usize,
>(
    words: &[u32],
    sheet: &[u32],
    numbers: &[u32],
    new: usize,
    bytes: usize,
    out: &mut [u32],
) -> Answer
    requires { ((n : List ℕ) × (ns : List ℕ) × Told words.now sheet.now numbers.now new bytes n ns) × (outside_size words.now ≤ OUTSIDE)
        × (OUTSIDE ≤ LARGEST_OUTSIDE) × (RoomFor sheet.now ENTRY_NAMES ROWS ENTRIES SHEET NODE_WORDS) }
    ensures { AskedTold words.now sheet.now numbers.now new bytes (length out.old) result out.new }
{
    let mut outside = [0u32; OUTSIDE];
    let mut copy = [0u32; SHEET];
    write_entry(
        words,
        sheet,
        numbers,
        &mut outside,
        &mut copy[..sheet.len()],
    );
    let mut classes = [0u32; ROWS];
    let mut entries = [0u32; ENTRIES];
    let mut results = [0u32; SHEET];
    let mut nodes = [0u32; NODE_WORDS];
    let tried = try_over(
        words,
        &copy[..sheet.len()],
        &outside,
        new,
        bytes,
        &mut classes,
        &mut entries,
        &mut results,
        &mut nodes,
        out,
    );
    tried.answer
}

// Entering has the session lent for writing and a preview for reading alone, so that no routine takes both and the sizes are chosen here as `enter_sheet` of crate
// `entry_space` chooses them.
//
// Tries a sheet over the session of the lent words: `numbers` are the session's numbers of its listed names, `new` of them new, in `bytes` bytes.
fn try_sheet(
    words: &[u32],
    sheet: &[u32],
    numbers: &[u32],
    new: usize,
    bytes: usize,
    out: &mut [u32],
) -> Answer
    requires { (n : List ℕ) × (ns : List ℕ) × Told words.now sheet.now numbers.now new bytes n ns }
    ensures { AskedTold words.now sheet.now numbers.now new bytes (length out.old) result out.new }
{
    if !is_small(sheet) {
        return try_with::<LARGEST_OUTSIDE, ROWS, ENTRIES, SHEET, NODE_WORDS>(
            words, sheet, numbers, new, bytes, out,
        );
    }
    if outside_size(words) > SMALL_OUTSIDE {
        return try_with::<
            LARGEST_OUTSIDE,
            SMALL_ROWS,
            SMALL_ENTRIES,
            SMALL_SHEET,
            SMALL_NODE_WORDS,
        >(words, sheet, numbers, new, bytes, out);
    }
    try_with::<SMALL_OUTSIDE, SMALL_ROWS, SMALL_ENTRIES, SMALL_SHEET, SMALL_NODE_WORDS>(
        words, sheet, numbers, new, bytes, out,
    )
}

// What entering a sheet with its names into the session of the lent words and bytes would answer, its answer rows in the lent answer words: for every input
// the answer and every answer word of `enter` on a copy of the session, and where no question gets a no, the closure claim.
pub fn preview(words: &[u32], bytes: &[u8], sheet: &[u32], names: &[u8], out: &mut [u32]) -> Answer
    ensures { Previewed words.now bytes.now sheet.now names.now (length out.old) result
        out.new }
{
    let mut numbers = [0u32; 1024];
    let session = LentSession { words, bytes };
    let entry = match prepare(session, sheet, names, &mut numbers) {
        Ok(entry) => entry,
        Err(no) => return refuse(no, out),
    };
    let listed = entry.names;
    let told = &numbers[..listed];
    let mut answer = try_sheet(words, sheet, told, entry.new, entry.bytes, out);
    answer.name = entry_number(told, entry.first - 1 + entry.new as u32, answer.name);
    answer
}
