// Question 24, whether a session has room for what an entry adds, and the counts of the session with it.
#![tactic(auto)]

ghost use Rattle.std.specs.Prelude.{◌≡◌, true, ◌∷◌, suc, ◌+◌, ◌*◌, ◌≤◌, get_or, leb};
ghost use Rattle.std.proofs.lemmas.List.Edits.{sets};
ghost use Rattle.session.specs.Words.{whole, entry_place};
ghost use Rattle.session_room.specs.Room.{counts_of, room_for, counts_added};

use ast::limit;
use session::layout;
use words::{put_words, word_at};

// What an entry adds: names and their bytes with ends, declarations laid over, classes, fields and methods.
#[derive(Clone, Copy, Debug, PartialEq, Eq)]
pub struct Added {
    pub names: usize,
    pub bytes: usize,
    pub laid: usize,
    pub classes: usize,
    pub members: usize,
}

// The five counts of a session or of the row of an entry.
#[derive(Clone, Copy, Debug, PartialEq, Eq)]
pub struct Counts {
    pub names: u32,
    pub bytes: u32,
    pub laid: u32,
    pub classes: u32,
    pub members: u32,
}

// Is a count with so many more not over its limit?
fn is_within(words: &[u32], place: usize, more: usize, most: usize) -> bool
    requires { most ≤ 4294967295 }
    ensures { result ≡ leb (get_or words.now place 0 + more) most }
{
    more <= most && word_at(words, place) as usize + more <= most
}

// Question 24: would no count be over its limit?
pub fn has_room(words: &[u32], added: Added) -> bool
    ensures { result ≡ room_for words.now added }
{
    is_within(words, layout::NAMES, added.names, limit::NAMES)
        && is_within(words, layout::NAME_BYTES, added.bytes, limit::LIST_BYTES)
        && is_within(
            words,
            layout::DECLARATIONS,
            added.laid,
            layout::MOST_DECLARATIONS,
        )
        && is_within(words, layout::CLASSES, added.classes, layout::MOST_CLASSES)
        && is_within(words, layout::MEMBERS, added.members, layout::MOST_MEMBERS)
        && is_within(words, layout::ENTRIES, 1, layout::MOST_ENTRIES)
}

// The five counts with what an entry adds.
fn counts_with(words: &[u32], added: Added) -> Counts
    requires { room_for words.now added ≡ true }
    ensures { counts_of result ≡ counts_added words.now added }
{
    Counts {
        names: word_at(words, layout::NAMES) + added.names as u32,
        bytes: word_at(words, layout::NAME_BYTES) + added.bytes as u32,
        laid: word_at(words, layout::DECLARATIONS) + added.laid as u32,
        classes: word_at(words, layout::CLASSES) + added.classes as u32,
        members: word_at(words, layout::MEMBERS) + added.members as u32,
    }
}

// Writes the row of an accepted entry, and the session's counts with it; `globals` is its final count of globals.
pub fn write_counts(words: &mut [u32], globals: u32, added: Added)
    requires { room_for words.old added ≡ true }
    ensures { words.new ≡ sets (sets words.old (entry_place whole (get_or words.old 1 0)) (counts_added words.old added))
        0 (globals ∷ suc (get_or words.old 1 0) ∷ get_or words.old 2 0 ∷ counts_added words.old added) }
{
    let counts = counts_with(words, added);
    let entries = word_at(words, layout::ENTRIES);
    let shown = word_at(words, layout::SHOWN);
    put_words(
        words,
        layout::ENTRY_ROWS + layout::ENTRY_WORDS * (entries as usize),
        &[
            counts.names,
            counts.bytes,
            counts.laid,
            counts.classes,
            counts.members,
        ],
    );
    put_words(
        words,
        layout::GLOBALS,
        &[
            globals,
            entries + 1,
            shown,
            counts.names,
            counts.bytes,
            counts.laid,
            counts.classes,
            counts.members,
        ],
    );
}
