// The visible names: the latest declaration of each name, and the core names that no declaration hides.
ghost use Rattle.std.specs.Prelude.{◌≡◌, List, [], ◌∷◌, suc, ◌+◌, ◌*◌, ◌<◌, ◌≤◌, length, get_or, replicate, ltb};
ghost use Rattle.std.proofs.lemmas.List.Edits.{sets};
ghost use Rattle.definition.specs.Basics.{when◌then◌else◌, concat_map};
ghost use Rattle.definition.specs.Meaning.{Named};
ghost use Rattle.definition.specs.Outside.{core};
ghost use Rattle.session.specs.Session.{past_rows};
ghost use Rattle.session.specs.Words.{whole, laid_place, laid_in};
ghost use Rattle.session_outside.specs.Written.{name_row, seen, name_rows, names_below, visible_names, core_name};
ghost use Rattle.session_outside.specs.Told.{told};

use crate::layout;
use crate::rows::put_row;
use crate::runs::SessionRuns;
use ast::code::Code;
use ast::{
    ARRAY_ID, AUDIO_DATA_ID, AUDIO_NEEDED_ID, BYTEARRAY_ID, DICT_ID, FIRST_CLASS, FLOAT64_ID,
    INT64_ID, STRING_ID, UIEVENT_ID,
};
use session::layout::MARKS;
use words::{entry_at, put_entry};

// The classes of names 1 to 9.
const CORE_CLASSES: [u32; 9] = [
    INT64_ID.0,
    FLOAT64_ID.0,
    STRING_ID.0,
    ARRAY_ID.0,
    BYTEARRAY_ID.0,
    DICT_ID.0,
    UIEVENT_ID.0,
    AUDIO_NEEDED_ID.0,
    AUDIO_DATA_ID.0,
];

// A name with what it means in an entry's walk.
#[derive(Clone, Copy, Debug, PartialEq, Eq)]
struct SeenName {
    name: u32,
    code: Code,
    number: u32,
    mutable: u32,
}

// A class's number in an entry's walk; those of the core stay.
fn earlier_class(c: u32) -> u32
    requires { c < 4294965248 }
    ensures { result ≡ (when ltb c 256 then c else past_rows c) }
{
    if c < FIRST_CLASS {
        c
    } else {
        c + layout::PAST_ROWS
    }
}

// Declaration `i`.
fn declared_name(runs: SessionRuns<'_>, i: u32) -> SeenName
    requires { i < get_or runs.words.now 5 0 }
    ensures { told result ≡ name_row (seen (laid_in whole runs.entry.words.now [] i)) }
{
    let p = layout::LAID + layout::LAID_WORDS * i;
    let name = entry_at(runs.words, p);
    let number = entry_at(runs.words, p + layout::NUMBER);
    let code = entry_at(runs.words, p + layout::CODE);
    // By number: any other code is read as a global's, and so is a word that is no code.
    if code == Code::Fun as u32 {
        SeenName {
            name: name,
            code: Code::Fun,
            number: number + layout::PAST_ROWS,
            mutable: 0,
        }
    } else if code == Code::Class as u32 {
        SeenName {
            name: name,
            code: Code::Class,
            number: earlier_class(number),
            mutable: 0,
        }
    } else {
        SeenName {
            name: name,
            code: Code::Global,
            number: number,
            mutable: entry_at(runs.words, p + layout::MUTABLE),
        }
    }
}

// Core name `i`, from 0.
fn core_name(i: u32) -> SeenName
    requires { i < 9 }
    ensures { told result ≡ name_row (seen (core_name i)) }
{
    SeenName {
        name: i + 1,
        code: Code::Class,
        number: CORE_CLASSES[i as usize],
        mutable: 0,
    }
}

// Writes the row of a name that has no mark, and marks it. Answers the next row.
fn lay_name(x: SeenName, row: u32, marks: &mut [u32], out: &mut [u32]) -> u32
    requires { row < 8192 }
    ensures { (result ≤ row + 1) × ((y : Named) (ys : List Named) → told x ≡ name_row (seen y)
        → name_rows result marks.new out.new ys ≡ name_rows row marks.old out.old (y ∷ ys)) }
{
    if entry_at(marks, x.name) != 0 {
        return row;
    }
    put_entry(marks, x.name, 1);
    put_row(
        out,
        row,
        [x.name, x.code.number(), x.number, x.mutable, 0, 0, 0, 0],
    );
    row + 1
}

// Lays the declarations, the latest first, from row 1 on.
fn lay_declared(runs: SessionRuns<'_>, marks: &mut [u32], out: &mut [u32]) -> u32
    ensures { (result ≤ 4097) × (name_rows result marks.new out.new core.names
        ≡ name_rows 1 marks.old out.old (names_below runs.entry.words.now (get_or runs.entry.words.now 5 0))) }
{
    let mut row: u32 = 1;
    for i in (0..entry_at(runs.words, layout::LAID_COUNT)).rev() {
        row = lay_name(declared_name(runs, i), row, marks, out);
    }
    row
}

// Lays the core names.
fn lay_core(first: u32, marks: &mut [u32], out: &mut [u32]) -> u32
    requires { first ≤ 4097 }
    ensures { name_rows result marks.new out.new [] ≡ name_rows first marks.old out.old core.names }
{
    let mut row = first;
    for i in 0..9 {
        row = lay_name(core_name(i), row, marks, out);
    }
    row
}

// The rows of all names, with lent marks.
fn lay_names(runs: SessionRuns<'_>, marks: &mut [u32], out: &mut [u32]) -> u32
    requires { marks.old ≡ replicate 1049 0 }
    ensures { (result ≡ suc (length (visible_names runs.entry.words.now)))
        × (out.new ≡ sets out.old 8 (concat_map name_row (visible_names runs.entry.words.now))) }
{
    lay_core(lay_declared(runs, marks, out), marks, out)
}

// Writes the rows of the visible names from row 1 on. Answers the next row.
pub fn name_rows(runs: SessionRuns<'_>, out: &mut [u32]) -> u32
    ensures { (result ≡ suc (length (visible_names runs.entry.words.now)))
        × (out.new ≡ sets out.old 8 (concat_map name_row (visible_names runs.entry.words.now))) }
{
    let mut marks = [0u32; MARKS];
    lay_names(runs, &mut marks, out)
}
