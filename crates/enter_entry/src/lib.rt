// An entry entered: tried over the session, and laid over it if it is accepted. Its sheet has the session's name numbers.
#![tactic(auto)]

ghost use Rattle.std.specs.Prelude.{◌≡◌, true, List, ℕ, ◌+◌, ◌*◌, ◌≤◌, length, get_or};
ghost use Rattle.definition.specs.Names.{Name};
ghost use Rattle.definition.specs.Scope.{history};
ghost use Rattle.definition.specs.Answer.{answers, raised};
ghost use Rattle.definition.specs.Outcome.{rows_of_words};
ghost use Rattle.machine.specs.Reads.{walk_refusal};
ghost use Rattle.walk.specs.Ended.{ended};
ghost use Rattle.entry_walk.specs.Laid.{BodyWalked};
ghost use Rattle.session.specs.Words.{whole, words_with};
ghost use Rattle.session_room.specs.Room.{room_for};
ghost use Rattle.try_entry.specs.Tried.{Adds};
ghost use Rattle.row_events.specs.Prepared.{Ready};
ghost use Rattle.outside.specs.Words.{over};
ghost use Rattle.enter_entry.specs.EnteredOver.{Enterable, kept_words, leaving, EnteredOver};

use answer::Answer;
use entry_classes::append_classes;
use lay_over::append_laid;
use lay_over::left::Left;
use session::layout;
use session_room::write_counts;
use try_entry::{Tried, base_of, outside_names, try_over};
use words::{put_at, word_at};

// The questions after whose no the session keeps the globals that the walk used.
const FIRST_OF_WALK: u32 = 5;

const LAST_WITH_GLOBALS: u32 = 21;

// Where the next rows of declarations, classes and members go.
fn laid_place(words: &[u32]) -> usize
    ensures { result ≡ 5008 + 4 * get_or words.now 5 0 }
{
    layout::DECLARATION_ROWS
        + layout::DECLARATION_WORDS * (word_at(words, layout::DECLARATIONS) as usize)
}

fn class_place(words: &[u32]) -> usize
    ensures { result ≡ 21392 + 5 * get_or words.now 6 0 }
{
    layout::CLASS_ROWS + layout::CLASS_WORDS * (word_at(words, layout::CLASSES) as usize)
}

fn member_place(words: &[u32]) -> usize
    ensures { result ≡ 26512 + 3 * get_or words.now 7 0 }
{
    layout::MEMBER_ROWS + layout::MEMBER_WORDS * (word_at(words, layout::MEMBERS) as usize)
}

// Keeps the globals that a refused walk used.
fn keep_globals(words: &mut [u32], number: u32, globals: u32)
    ensures { words.new ≡ kept_words number globals words.old }
{
    if number < FIRST_OF_WALK {
        return;
    }
    if LAST_WITH_GLOBALS < number {
        return;
    }
    put_at(words, layout::GLOBALS, globals);
}

// Lays an accepted entry over its session: members, classes, declarations, then the row of the entry and the counts.
fn lay_down(
    words: &mut [u32],
    sheet: &[u32],
    outside: &[u32],
    entries: &[u32],
    results: &[u32],
    out: &[u32],
    tried: Tried,
)
    requires { (Enterable words.old outside.now sheet.now) × (room_for words.old tried.added ≡ true) × (8 * tried.answer.rows ≤ length out.now)
        × (rows_of_words tried.answer.rows out.now ≡ raised (2048 * get_or words.old 1 0) (answers (over outside.now) sheet.now (history (over outside.now) sheet.now)))
        × ((nodes : List ℕ) × BodyWalked (over outside.now) sheet.now (ended tried.walk entries.now results.now nodes))
        × ((walk_refusal (over outside.now) sheet.now).number ≡ 0) }
    ensures { (ms : List Name) → Adds (leaving (over outside.now) (2048 * get_or words.old 1 0) sheet.now ms) tried.added
        → words.new ≡ words_with whole words.old tried.answer.globals
        (leaving (over outside.now) (2048 * get_or words.old 1 0) sheet.now ms) }
{
    let answer = tried.answer;
    let walk = tried.walk;
    let env = walk.env;
    let base = base_of(words);
    let classes = class_place(words);
    let members = member_place(words);
    let laid = laid_place(words);
    append_classes(
        words,
        classes,
        members,
        sheet,
        outside,
        results,
        out,
        answer.rows,
        base,
    );
    let left = Left {
        sheet,
        entries,
        base,
    };
    append_laid(words, laid, left, outside_names(outside), env.count);
    write_counts(words, answer.globals, tried.added);
}

// Enters a sheet in lent scratch space.
pub fn enter_in(
    words: &mut [u32],
    sheet: &[u32],
    outside: &[u32],
    new: usize,
    bytes: usize,
    classes: &mut [u32],
    entries: &mut [u32],
    results: &mut [u32],
    nodes: &mut [u32],
    out: &mut [u32],
) -> Answer
    requires { (Enterable words.old outside.now sheet.now)
        × (Ready (over outside.now) sheet.now classes.old entries.old results.old nodes.old) }
    ensures { EnteredOver words.old outside.now sheet.now new bytes (length out.old) result out.new
        words.new }
{
    let tried = try_over(
        words, sheet, outside, new, bytes, classes, entries, results, nodes, out,
    );
    let answer = tried.answer;
    if answer.number != 0 {
        let walk = tried.walk;
        let env = walk.env;
        keep_globals(words, answer.number, env.globals);
        return answer;
    }
    lay_down(words, sheet, outside, entries, results, out, tried);
    answer
}
