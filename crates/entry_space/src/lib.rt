// The scratch space in which an entry is entered: what the session is to it, a copy of its sheet with the session's name numbers, and the space of its walk,
// in three sizes, so that a small entry into a small session does not spend its time on clearing words.
#![tactic(auto)]

ghost use Rattle.std.specs.Prelude.{List, ℕ, ◌≤◌, length};
ghost use Rattle.walk_space.specs.Room.{RoomFor};
ghost use Rattle.session_outside.specs.Readable.{outside_size};
ghost use Rattle.prepare_entry.specs.Told.{Told};
ghost use Rattle.entry_space.specs.Space.{EnteredTold};

use answer::Answer;
use enter_entry::enter_in;
use prepare_entry::{LARGEST_OUTSIDE, SMALL_OUTSIDE, write_entry};
use session_outside::outside_size;
use walk_space::is_small;
use walk_space::size::{
    ENTRIES, ENTRY_NAMES, NODE_WORDS, ROWS, SHEET, SMALL_ENTRIES, SMALL_NODE_WORDS, SMALL_ROWS,
    SMALL_SHEET,
};

// Enters a sheet in scratch arrays of these sizes: what the session is to it, classes, open entries, results and copy, nodes.
fn enter_with<
    const OUTSIDE: usize,
    const ROWS: usize,
    const ENTRIES: usize,
    const SHEET: usize,
    const NODE_WORDS: usize,
>(
    words: &mut [u32],
    sheet: &[u32],
    numbers: &[u32],
    new: usize,
    bytes: usize,
    out: &mut [u32],
) -> Answer
    requires { ((n : List ℕ) × (ns : List ℕ) × Told words.old sheet.now numbers.now new bytes n ns) × (outside_size words.old ≤ OUTSIDE)
        × (OUTSIDE ≤ LARGEST_OUTSIDE) × (RoomFor sheet.now ENTRY_NAMES ROWS ENTRIES SHEET NODE_WORDS) }
    ensures { EnteredTold words.old sheet.now numbers.now new bytes (length out.old) result out.new
        words.new }
{
    let mut outside = [0u32; OUTSIDE];
    let mut copy = [0u32; SHEET];
    write_entry(
        words,
        sheet,
        numbers,
        &mut outside,
        &mut copy[..sheet.len()],
    );
    let mut classes = [0u32; ROWS];
    let mut entries = [0u32; ENTRIES];
    let mut results = [0u32; SHEET];
    let mut nodes = [0u32; NODE_WORDS];
    enter_in(
        words,
        &copy[..sheet.len()],
        &outside,
        new,
        bytes,
        &mut classes,
        &mut entries,
        &mut results,
        &mut nodes,
        out,
    )
}

// Enters a sheet into the session of the lent words: `numbers` are the session's numbers of its listed names, `new` of them new, in `bytes` bytes.
pub fn enter_sheet(
    words: &mut [u32],
    sheet: &[u32],
    numbers: &[u32],
    new: usize,
    bytes: usize,
    out: &mut [u32],
) -> Answer
    requires { (n : List ℕ) × (ns : List ℕ) × Told words.old sheet.now numbers.now new bytes n ns }
    ensures { EnteredTold words.old sheet.now numbers.now new bytes (length out.old) result out.new
        words.new }
{
    if !is_small(sheet) {
        return enter_with::<LARGEST_OUTSIDE, ROWS, ENTRIES, SHEET, NODE_WORDS>(
            words, sheet, numbers, new, bytes, out,
        );
    }
    if outside_size(words) > SMALL_OUTSIDE {
        return enter_with::<
            LARGEST_OUTSIDE,
            SMALL_ROWS,
            SMALL_ENTRIES,
            SMALL_SHEET,
            SMALL_NODE_WORDS,
        >(words, sheet, numbers, new, bytes, out);
    }
    enter_with::<SMALL_OUTSIDE, SMALL_ROWS, SMALL_ENTRIES, SMALL_SHEET, SMALL_NODE_WORDS>(
        words, sheet, numbers, new, bytes, out,
    )
}
