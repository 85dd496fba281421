// The classes of an accepted entry with their members after inheritance, written into the words of its session. Its answer rows tell them in order: a
// class, its fields by slot, its methods.
#![tactic(auto)]

ghost use Rattle.std.specs.Prelude.{◌≡◌, ◌||◌, List, ℕ, ◌+◌, ◌*◌, ◌<◌, ◌≤◌, eqb, T, length};
ghost use Rattle.std.proofs.lemmas.List.Edits.{sets};
ghost use Rattle.definition.specs.Basics.{all, bit, concat_map, total};
ghost use Rattle.definition.specs.Sheet.{Sheet};
ghost use Rattle.definition.specs.Outside.{Outside, based};
ghost use Rattle.definition.specs.Scope.{history};
ghost use Rattle.definition.specs.Answer.{answers, raised};
ghost use Rattle.definition.specs.Outcome.{rows_of_words};
ghost use Rattle.machine.specs.Reads.{PastFour, Walked};
ghost use Rattle.outside.specs.Words.{over};
ghost use Rattle.store.specs.Stored.{store_of};
ghost use Rattle.ast.specs.Refused.{refusal_in};
ghost use Rattle.walk.specs.Ended.{ended};
ghost use Rattle.session.specs.Session.{member_count};
ghost use Rattle.session.specs.Enter.{classes_by};
ghost use Rattle.session.specs.Words.{class_words, member_words};
ghost use Rattle.entry_classes.specs.Told.{class_of, member_of, row_fits, tells_class, tells_member, method_told, told_member, told_class, member_in, class_in, part_words, part_in, IsPut};

use ast::code::Code;
use ast::{ClassId, FIRST_CLASS, column};
use inherit::{find_method, parent_of};
use raise::{raised_class, raised_function};
use session::layout;
use source::Source;
use store::nodes::Store;
use walk::state::Walk;
use words::{put_words, word};

mod source;

// A class: its number and name, its parent's number or 0, how many fields and methods it has.
#[derive(Clone, Copy, Debug, PartialEq, Eq)]
pub struct Class {
    pub number: u32,
    pub name: u32,
    pub parent: u32,
    pub fields: u32,
    pub methods: u32,
}

// A field or a method: its name, and a method's function and parameters; 0 and 0 of a field.
#[derive(Clone, Copy, Debug, PartialEq, Eq)]
pub struct Member {
    pub name: u32,
    pub fun: u32,
    pub params: u32,
}

// The columns of an answer row: its sheet row, its code, and its values. A field's name is its second value, a method's its first; a class has its counts
// of fields and methods in the third and fourth.
const ROW: usize = 0;

const CODE: usize = 1;

const FIRST: usize = 2;

const SECOND: usize = 3;

const FIELDS: usize = 4;

const METHODS: usize = 5;

// How many classes, and how many fields and methods of theirs.
#[derive(Clone, Copy, Debug, PartialEq, Eq)]
pub struct Counted {
    pub classes: usize,
    pub members: usize,
}

// What is written of answer rows: the fields and methods that they tell, or the classes. One loop serves both; a row is told by a routine for each.
#[derive(Clone, Copy)]
pub enum Part {
    Members,
    Classes,
}

// Does an answer row of this code tell a field or a method?
fn is_member(c: u32) -> bool
    ensures { result ≡ (eqb c 23 || eqb c 24) }
{
    c == Code::Field as u32 || c == Code::Method as u32
}

// Counts the classes of an entry and their members in its answer rows.
pub fn count_classes(out: &[u32], rows: usize) -> Counted
    requires { 8 * rows ≤ length out.now }
    ensures { (O : Outside) (s : Sheet) (n : ℕ) → rows_of_words rows out.now ≡ raised n (answers O s (history O s))
        → (result.classes ≡ length (classes_by (based O n) s)) × (result.members ≡ total member_count (classes_by (based O n) s)) }
{
    let mut classes: usize = 0;
    let mut members: usize = 0;
    for i in 0..rows {
        let c = out[8 * i + CODE];
        classes += (c == Code::ClassCounts as u32) as usize;
        members += is_member(c) as usize;
    }
    Counted {
        classes: classes,
        members: members,
    }
}

// The method of a name that the class of a sheet row has, its own or inherited. Its function is raised from the number that the walk has: over base 0 the
// answer rows are left as they are.
fn method_of(source: Source<'_>, row: u32, name: u32) -> Member
    requires { row < 2048 }
    ensures { (o : Store) (nodes : List ℕ) → member_of result
        ≡ method_told (over source.entry.outside.now) source.entry.sheet.now (store_of o source.entry.results.now nodes) source.entry.base row name }
{
    let class = ClassId(FIRST_CLASS + row);
    let found = find_method(source.sheet, source.outside, source.results, class, name);
    let fun = found.fun;
    Member {
        name: name,
        fun: raised_function(source.base, fun.0),
        params: found.params as u32,
    }
}

// The member that an answer row tells.
fn member_of(source: Source<'_>, row: &[u32]) -> Member
    requires { (length row.now ≡ 8) × T (row_fits row.now) }
    ensures { (o : Store) (nodes : List ℕ) → member_of result
        ≡ told_member (over source.entry.outside.now) source.entry.sheet.now (store_of o source.entry.results.now nodes) source.entry.base row.now }
{
    if row[CODE] == Code::Field as u32 {
        return Member {
            name: row[SECOND],
            fun: 0,
            params: 0,
        };
    }
    method_of(source, row[ROW], row[FIRST])
}

// The class that an answer row tells. Its parent is raised from the number that the walk stored, as a method's function is.
#[tactic(auto, using(crate::proofs::RowLaws::row_below, crate::proofs::RowLaws::class_told))]
fn class_of(source: Source<'_>, row: &[u32]) -> Class
    requires { (length row.now ≡ 8) × T (row_fits row.now) }
    ensures { (o : Store) (nodes : List ℕ) → class_of result
        ≡ told_class source.entry.sheet.now (store_of o source.entry.results.now nodes) source.entry.base row.now }
{
    let r = row[ROW];
    let c = ClassId(FIRST_CLASS + r);
    let parent = parent_of(source.sheet, source.results, c);
    Class {
        number: raised_class(source.base, c.0),
        name: word(source.sheet, r, column::A),
        parent: raised_class(source.base, parent.0),
        fields: row[FIELDS],
        methods: row[METHODS],
    }
}

// Writes a member.
fn put_member(words: &mut [u32], place: usize, m: Member)
    requires { place ≤ 4611686018427387904 }
    ensures { words.new ≡ sets words.old place (member_of m) }
{
    put_words(words, place, &[m.name, m.fun, m.params]);
}

// Writes a class.
fn put_class(words: &mut [u32], place: usize, c: Class)
    requires { place ≤ 4611686018427387904 }
    ensures { words.new ≡ sets words.old place (class_of c) }
{
    put_words(
        words,
        place,
        &[c.number, c.name, c.parent, c.fields, c.methods],
    );
}

// Writes the member that an answer row tells, if it tells one, and answers how many words that are, else 0.
fn append_member(words: &mut [u32], place: usize, source: Source<'_>, row: &[u32]) -> usize
    requires { (place ≤ 4611686018427387904) × (length row.now ≡ 8) × T (row_fits row.now) }
    ensures { (result ≡ 3 * bit (tells_member row.now))
        × ((o : Store) (nodes : List ℕ) → words.new ≡ sets words.old place
        (member_in (over source.entry.outside.now) source.entry.sheet.now (store_of o source.entry.results.now nodes) source.entry.base row.now)) }
{
    if !is_member(row[CODE]) {
        return 0;
    }
    put_member(words, place, member_of(source, row));
    layout::MEMBER_WORDS
}

// Writes the class that an answer row tells, if it tells one, and answers how many words that are, else 0.
fn append_class(words: &mut [u32], place: usize, source: Source<'_>, row: &[u32]) -> usize
    requires { (place ≤ 4611686018427387904) × (length row.now ≡ 8) × T (row_fits row.now) }
    ensures { (result ≡ 5 * bit (tells_class row.now))
        × ((o : Store) (nodes : List ℕ) → words.new ≡ sets words.old place
        (class_in source.entry.sheet.now (store_of o source.entry.results.now nodes) source.entry.base row.now)) }
{
    if row[CODE] != Code::ClassCounts as u32 {
        return 0;
    }
    put_class(words, place, class_of(source, row));
    layout::CLASS_WORDS
}

// Writes what an answer row tells of a part, and answers how many words that are.
fn append_row(words: &mut [u32], place: usize, part: Part, source: Source<'_>, row: &[u32]) -> usize
    requires { (place ≤ 4611686018427387904) × (length row.now ≡ 8) × T (row_fits row.now) }
    ensures { (result ≤ part_words part)
        × ((o : Store) (nodes : List ℕ) → IsPut (part_in part (over source.entry.outside.now) source.entry.sheet.now
        (store_of o source.entry.results.now nodes) source.entry.base row.now) place words.old result words.new) }
{
    match part {
        Part::Members => append_member(words, place, source, row),
        Part::Classes => append_class(words, place, source, row),
    }
}

// Writes what answer rows tell of a part, one after another from a place on.
fn append_part(
    words: &mut [u32],
    place: usize,
    part: Part,
    source: Source<'_>,
    out: &[u32],
    rows: usize,
)
    requires { (place + part_words part * rows ≤ 4611686018427387904) × (8 * rows ≤ length out.now) × T (all row_fits (rows_of_words rows out.now)) }
    ensures { (o : Store) (nodes : List ℕ) → words.new ≡ sets words.old place
        (concat_map (part_in part (over source.entry.outside.now) source.entry.sheet.now (store_of o source.entry.results.now nodes) source.entry.base)
        (rows_of_words rows out.now)) }
{
    let mut p = place;
    for i in 0..rows {
        p += append_row(words, p, part, source, &out[8 * i..8 * i + 8]);
    }
}

// Writes the members of an accepted entry's classes from place `members` on and the classes from place `classes` on, as its answer rows over `base` and
// the walk's results tell them.
pub fn append_classes(
    words: &mut [u32],
    classes: usize,
    members: usize,
    sheet: &[u32],
    outside: &[u32],
    results: &[u32],
    out: &[u32],
    rows: usize,
    base: u32,
)
    requires { (classes + 5 * rows ≤ 4611686018427387904) × (members + 3 * rows ≤ 4611686018427387904) × (base ≤ 2048000) × (8 * rows ≤ length out.now)
        × (PastFour (over outside.now) sheet.now)
        × (rows_of_words rows out.now ≡ raised base (answers (over outside.now) sheet.now (history (over outside.now) sheet.now))) }
    ensures { (walk : Walk) (entries nodes : List ℕ)
        → Walked (over outside.now) sheet.now (ended walk entries results.now nodes) → (refusal_in walk.done).number ≡ 0
        → words.new
        ≡ sets (sets words.old members (concat_map member_words (classes_by (based (over outside.now) base) sheet.now)))
        classes (concat_map class_words (classes_by (based (over outside.now) base) sheet.now)) }
{
    let source = Source {
        sheet,
        outside,
        results,
        base,
    };
    append_part(words, members, Part::Members, source, out, rows);
    append_part(words, classes, Part::Classes, source, out, rows);
}
