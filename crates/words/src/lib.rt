// Words of lent slices, read and written without a bound to prove: a word past the end reads as 0, and writing there does nothing.
#![tactic(auto)]

ghost use Rattle.std.specs.Prelude.{◌≡◌, ◌+◌, ◌*◌, ◌≤◌, length, get_or, set, replicate};
ghost use Rattle.std.proofs.lemmas.List.Edits.{sets};
ghost use Rattle.ast.specs.Kind.{ReadsKind, kind_number};
ghost use Rattle.definition.specs.Sheet.{is, kind, word as word_at};
ghost use Rattle.definition.specs.Outcome.{rows_fit};
ghost use Rattle.machine.specs.Machine.{one_more};

use ast::kind::{Kind, UnknownKind};
use ast::{column, limit};

// A word of a row, eight words to a row: of a sheet, of the results, of the outside.
pub fn word(rows: &[u32], row: u32, column: u32) -> u32
    ensures { result ≡ word_at rows.now row column }
{
    word_at(rows, 8 * (row as usize) + (column as usize))
}

// Is a row of a sheet of a kind?
pub fn is_kind(sheet: &[u32], row: u32, kind: Kind) -> bool
    ensures { result ≡ is sheet.now (kind_number kind) row }
{
    word(sheet, row, column::KIND) == kind as u32
}

// The kind of a row of a sheet.
#[inline(always)]
pub fn kind_at(sheet: &[u32], row: u32) -> Result<Kind, UnknownKind>
    ensures { ReadsKind (kind sheet.now row) result }
{
    Kind::try_from(word(sheet, row, column::KIND))
}

// Writes a word of a row.
pub fn put(rows: &mut [u32], row: u32, column: u32, value: u32)
    ensures { rows.new ≡ set rows.old (8 * row + column) value }
{
    put_at(rows, 8 * (row as usize) + (column as usize), value)
}

// Entry `i` of a table.
pub fn entry_at(table: &[u32], i: u32) -> u32
    ensures { result ≡ get_or table.now i 0 }
{
    word_at(table, i as usize)
}

// Writes entry `i` of a table.
pub fn put_entry(table: &mut [u32], i: u32, x: u32)
    ensures { table.new ≡ set table.old i x }
{
    put_at(table, i as usize, x)
}

// The word at a place.
pub fn word_at(words: &[u32], place: usize) -> u32
    ensures { result ≡ get_or words.now place 0 }
{
    words.get(place).copied().unwrap_or(0)
}

// Writes a word, if its place is there.
pub fn put_at(words: &mut [u32], place: usize, x: u32)
    ensures { words.new ≡ set words.old place x }
{
    if place < words.len() {
        words[place] = x;
    }
}

// Writes words from a place on, as far as these are there.
pub fn put_words(words: &mut [u32], place: usize, xs: &[u32])
    requires { place ≤ 4611686018427387904 }
    ensures { words.new ≡ sets words.old place xs.now }
{
    for (i, &x) in xs.iter().enumerate() {
        put_at(words, place + i, x);
    }
}

// Writes 0 everywhere.
pub fn clear(words: &mut [u32])
    ensures { words.new ≡ replicate (length words.old) 0 }
{
    words.fill(0);
}

// One more, unless that would not fit a word.
pub fn one_more(n: u32) -> u32
    ensures { result ≡ one_more n }
{
    n.saturating_add(1)
}

// Question 1: are words 1 to 2,048 rows of eight?
pub fn sheet_sized(words: &[u32]) -> bool
    ensures { result ≡ rows_fit words.now }
{
    let rows = words.len() / 8;
    8 * rows == words.len() && (1..=limit::ROWS).contains(&rows)
}
