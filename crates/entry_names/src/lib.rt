// The names of an entry by the session's numbers (document 02, F-1), and its sheet with these numbers. Names are looked for in the index
// of the session's list.
#![tactic(auto)]

ghost use Rattle.std.specs.Prelude.{◌≡◌, true, List, ℕ, suc, ◌+◌, ◌^◌, ◌<◌, ◌≤◌, length, set, eqb};
ghost use Rattle.std.proofs.lemmas.List.Edits.{sets};
ghost use Rattle.definition.specs.Basics.{when◌then◌else◌, bit, concat_map, place, unlike};
ghost use Rattle.definition.specs.Names.{same_name, names_fit};
ghost use Rattle.definition.specs.Outcome.{rows_fit};
ghost use Rattle.names.specs.Listed.{numbered};
ghost use Rattle.shapes.specs.Numbers.{rule_number};
ghost use Rattle.shapes.specs.States.{rule_at};
ghost use Rattle.session.specs.Session.{Session, all_names};
ghost use Rattle.session.specs.Entry.{new_names, names_with, to_entry, holds_name, entry_sheet};
ghost use Rattle.session.specs.Words.{ended};
ghost use Rattle.entry_names.specs.Told.{session_numbers, NamesTold, number_told, in_column, word_told, ended_from};

use ast::kind::Kind;
use ast::{column, name};
use name_index::NameIndex;
use names::{END, FIRST_LISTED, Names};
use shapes::rule::Rule;
use shapes::{rule_a, rule_b};
use words::word_at;

// How many words a row has.
const ROW_WORDS: usize = 8;

// How many names are listed, how many of them are new to the session, and how many bytes the new ones take with their ends.
#[derive(Clone, Copy, Debug, PartialEq, Eq)]
pub struct Numbered {
    pub count: usize,
    pub new: usize,
    pub bytes: usize,
}

impl Numbered {
    // One name more, of `size` bytes without its end.
    fn counted(self, is_new: bool, size: usize) -> Numbered
        requires { (self.count ≤ 1024) × (self.new ≤ 1024) × (self.bytes ≤ 32768) × (size ≤ 32768) }
        ensures { (result.count ≡ self.count + 1) × (result.new ≡ self.new + bit is_new)
            × (result.bytes ≡ self.bytes + (when is_new then size + 1 else 0)) }
    {
        Numbered {
            count: self.count + 1,
            new: self.new + is_new as usize,
            bytes: self.bytes + if is_new { size + 1 } else { 0 },
        }
    }
}

// Writes the session's number of each listed name of an entry. A name that the session has not gets the next number: no two of the
// entry's names are the same, so none is looked for among the new ones.
pub fn number_names(list: NameIndex<'_>, names: &[u8], numbers: &mut [u32]) -> Numbered
    requires { (names_fit names.now ≡ true) × (1024 ≤ length numbers.old) }
    ensures { (S : Session) → all_names S ≡ numbered list.entry.listed.names.now
        → NamesTold S names.now result.count result.new result.bytes numbers.new }
{
    let first_new = name::LAST_FIXED + 1 + list.listed.count();
    let mut tally = Numbered {
        count: 0,
        new: 0,
        bytes: 0,
    };
    for name in Names(names) {
        let found = list.find(name).number;
        numbers[tally.count] = found.unwrap_or((first_new + tally.new) as u32);
        tally = tally.counted(found.is_none(), name.len());
    }
    tally
}

// The session's number of the entry's name n, by the numbers of the listed names; a number that names nothing stays.
fn number_told(numbers: &[u32], n: u32) -> u32
    ensures { result ≡ number_told numbers.now n }
{
    match n.checked_sub(FIRST_LISTED) {
        Some(k) => numbers.get(k as usize).copied().unwrap_or(n),
        None => n,
    }
}

// Does a column under this rule hold names?
fn is_name_rule(rule: Rule) -> bool
    ensures { result ≡ holds_name (rule_at (rule_number rule)) }
{
    matches!(rule, Rule::Name | Rule::NameOrZero)
}

// Does column c of a row of this kind hold names?
fn holds_name(kind: u32, c: u32) -> bool
    ensures { result ≡ in_column kind c }
{
    match Kind::try_from(kind) {
        Ok(kind) => {
            if c == column::A {
                is_name_rule(rule_a(kind))
            } else if c == column::B {
                is_name_rule(rule_b(kind))
            } else {
                false
            }
        }
        Err(_) => false,
    }
}

// Word i of a sheet; if it is a name, the session's number of it.
fn entry_word(sheet: &[u32], numbers: &[u32], i: usize) -> u32
    ensures { result ≡ word_told sheet.now numbers.now i }
{
    let word = word_at(sheet, i);
    let c = i % ROW_WORDS;
    let kind = word_at(sheet, i - c);
    if holds_name(kind, c as u32) {
        return number_told(numbers, word);
    }
    word
}

// Writes the entry's sheet with the session's numbers in the columns that hold names.
pub fn entry_sheet(sheet: &[u32], numbers: &[u32], copy: &mut [u32])
    requires { (rows_fit sheet.now ≡ true) × (length copy.old ≡ length sheet.now) }
    ensures { (S : Session) (ns : List ℕ) → numbers.now ≡ session_numbers S ns
        → copy.new ≡ entry_sheet S ns sheet.now }
{
    for i in 0..sheet.len() {
        copy[i] = entry_word(sheet, numbers, i);
    }
}

// The place of a number among others; past them where it is not there.
fn place_of(numbers: &[u32], n: u32) -> usize
    ensures { result ≡ place (λ x. eqb x n) numbers.now }
{
    numbers
        .iter()
        .position(|&number| number == n)
        .unwrap_or(numbers.len())
}

// The entry's number of the session's name n, by the numbers of the listed names; `last` is the last number of the session's and the new names.
pub fn entry_number(numbers: &[u32], last: u32, n: u32) -> u32
    requires { length numbers.now ≤ 1024 }
    ensures { (S : Session) (ns : List ℕ) → unlike same_name (all_names S) ≡ true → names_fit ns ≡ true
        → numbers.now ≡ session_numbers S ns → last ≡ length (names_with S ns) → result ≡ to_entry S ns n }
{
    if n < FIRST_LISTED || last < n {
        return n;
    }
    FIRST_LISTED + place_of(numbers, n) as u32
}

// Writes a byte; past the end it does nothing.
fn put_byte(bytes: &mut [u8], place: usize, byte: u8)
    ensures { bytes.new ≡ set bytes.old place byte }
{
    if place < bytes.len() {
        bytes[place] = byte;
    }
}

// Writes a name with its end from place `at` on.
fn write_name(name: &[u8], bytes: &mut [u8], at: usize)
    requires { at + length name.now < 2 ^ 64 }
    ensures { bytes.new ≡ sets bytes.old at (ended name.now) }
{
    for i in 0..name.len() {
        put_byte(bytes, at + i, name[i]);
    }
    put_byte(bytes, at + name.len(), END);
}

// Writes a name with its end if its number is that of a new one, and answers the place after what was written.
fn append_new(name: &[u8], number: u32, first: u32, bytes: &mut [u8], at: usize) -> usize
    requires { at + length name.now + 1 < 2 ^ 64 }
    ensures { (bytes.new ≡ sets bytes.old at (ended_from first number name.now))
        × (result ≡ at + length (ended_from first number name.now)) }
{
    if number < first {
        return at;
    }
    write_name(name, bytes, at);
    at + name.len() + 1
}

// Writes the entry's new names from place `at` on, each with its end: those whose numbers are `first` at least.
pub fn append_names(names: &[u8], numbers: &[u32], first: u32, bytes: &mut [u8], at: usize)
    requires { (names_fit names.now ≡ true) × (at ≤ length bytes.old) }
    ensures { (S : Session) → numbers.now ≡ session_numbers S names.now → first ≡ suc (length (all_names S))
        → bytes.new ≡ sets bytes.old at (concat_map ended (new_names S names.now)) }
{
    let mut to = at;
    let mut k: usize = 0;
    for name in Names(names) {
        to = append_new(name, word_at(numbers, k), first, bytes, to);
        k += 1;
    }
}
