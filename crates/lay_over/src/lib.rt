// What an entry declared, laid over the visible names of its session: four words for each declaration.
#![tactic(auto)]

ghost use Rattle.std.specs.Prelude.{◌≡◌, ℕ, ◌+◌, ◌-◌, ◌≤◌, eqb, length};
ghost use Rattle.std.proofs.lemmas.List.Edits.{sets};
ghost use Rattle.definition.specs.Basics.{concat_map};
ghost use Rattle.definition.specs.Meaning.{named};
ghost use Rattle.definition.specs.Sheet.{Sheet, b};
ghost use Rattle.machine.specs.Machine.{entry_word};
ghost use Rattle.session.specs.Words.{laid_words};
ghost use Rattle.entry_walk.specs.Laid.{left_by, left_in, left_from};
ghost use Rattle.lay_over.specs.LaidWords.{laid_of};

use ast::code::Code;
use ast::{column, flag};
use left::Left;
use raise::{raised_class, raised_function};
use symbols::env::entry_word;
use symbols::{entry, tag};
use words::{put_words, word};

pub mod left;

// A declaration laid over: its name, the code of what it means, the number of that, 1 if it is mutable.
#[derive(Clone, Copy, Debug, PartialEq, Eq)]
pub struct Laid {
    pub name: u32,
    pub code: Code,
    pub number: u32,
    pub mutable: u32,
}

// Is the let of a row mutable?
fn is_mutable(sheet: &[u32], row: u32) -> bool
    ensures { result ≡ eqb (b sheet.now row) 1 }
{
    word(sheet, row, column::B) == flag::MUTABLE
}

// What open entry `i`, which is no mark, means to later entries.
#[tactic(auto, using(crate::proofs::LaidLaws::function_words, crate::proofs::LaidLaws::class_words_lem, crate::proofs::LaidLaws::global_words, crate::proofs::LaidLaws::let_words, crate::proofs::LaidLaws::other_words))]
fn left_at(left: Left<'_>, i: u32) -> Laid
    ensures { laid_of result ≡ laid_words (named (entry_word left.entry.entries.now i 1)
        (left_by left.entry.sheet.now left.entry.base (entry_word left.entry.entries.now i 0)
        (entry_word left.entry.entries.now i 2) (entry_word left.entry.entries.now i 3))) }
{
    let name = entry_word(left.entries, i, entry::NAME);
    let first = entry_word(left.entries, i, entry::FIRST);
    let second = entry_word(left.entries, i, entry::SECOND);
    match entry_word(left.entries, i, entry::TAG) {
        tag::FUN => Laid {
            name: name,
            code: Code::Fun,
            number: raised_function(left.base, first),
            mutable: 0,
        },
        tag::CLASS => Laid {
            name: name,
            code: Code::Class,
            number: raised_class(left.base, first),
            mutable: 0,
        },
        tag::GLOBAL => Laid {
            name: name,
            code: Code::Global,
            number: first,
            mutable: second,
        },
        tag::TOPLEVEL => Laid {
            name: name,
            code: Code::Global,
            number: second,
            mutable: is_mutable(left.sheet, first) as u32,
        },
        _ => Laid {
            name: name,
            code: Code::Nothing,
            number: 0,
            mutable: 0,
        },
    }
}

// Writes a declaration.
fn put_laid(words: &mut [u32], place: usize, d: Laid)
    requires { place ≤ 34359738368 }
    ensures { words.new ≡ sets words.old place (laid_of d) }
{
    put_words(
        words,
        place,
        &[d.name, d.code.number(), d.number, d.mutable],
    );
}

// How many declarations open entry `i` leaves: none, if it is a mark.
#[tactic(auto, using(crate::proofs::LaidLaws::count_left))]
fn count_left(entries: &[u32], i: u32) -> u32
    ensures { (s : Sheet) (n : ℕ) → result ≡ length (left_in s n entries.now i) }
{
    (tag::SCOPE < entry_word(entries, i, entry::TAG)) as u32
}

// How many declarations the open entries from `first` to `end` leave.
pub fn count_laid(entries: &[u32], first: u32, end: u32) -> u32
    ensures { (s : Sheet) (n : ℕ) → result ≡ length (left_from s n entries.now first (end - first)) }
{
    let mut count: u32 = 0;
    for i in first..end {
        count += count_left(entries, i);
    }
    count
}

// Writes what open entry `i` leaves, and answers how many words that are, 0 for a mark.
#[tactic(auto, using(crate::proofs::LaidLaws::mark_written, crate::proofs::LaidLaws::name_written))]
fn put_left(words: &mut [u32], place: usize, left: Left<'_>, i: u32) -> usize
    requires { place ≤ 34359738368 }
    ensures { (words.new ≡ sets words.old place (concat_map laid_words (left_in left.entry.sheet.now left.entry.base left.entry.entries.now i)))
        × (result ≡ length (concat_map laid_words (left_in left.entry.sheet.now left.entry.base left.entry.entries.now i))) }
{
    if entry_word(left.entries, i, entry::TAG) <= tag::SCOPE {
        return 0;
    }
    put_laid(words, place, left_at(left, i));
    4
}

// Writes what the open entries from `first` to `end` leave, one declaration after another from a place on.
pub fn append_laid(words: &mut [u32], place: usize, left: Left<'_>, first: u32, end: u32)
    requires { place ≤ 65536 }
    ensures { words.new
        ≡ sets words.old place (concat_map laid_words (left_from left.entry.sheet.now left.entry.base left.entry.entries.now first (end - first))) }
{
    let mut p = place;
    for i in first..end {
        p += put_left(words, p, left, i);
    }
}
