// Declarations in the open scopes: found by name, made from a row, and pushed.
ghost use Rattle.std.specs.Prelude.{◌≡◌, List, ℕ, ◌≤◌, length, Some};
ghost use Rattle.definition.specs.Basics.{when◌then◌else◌};
ghost use Rattle.definition.specs.Sheet.{word as word_at};
ghost use Rattle.definition.specs.Meaning.{Meaning, class_number, is_toplevel, is_variable, row_of, owner_of};
ghost use Rattle.definition.specs.Slots.{is_local, is_mutable};
ghost use Rattle.machine.specs.Machine.{is_outer_variable, tag_of, first_of, second_of, meaning_of, meaning_at, slot_at, global_at, one_more, searched, lookup_meaning, lookup_slot, lookup_global, lookup_distance, new_meaning, push_name};
ghost use Rattle.symbols.specs.OpenScopes.{scopes_of};
ghost use Rattle.symbols.specs.OpenDecls.{means, meant, slot_or, number_or, StandsFor};

use crate::env::{Env, entry_word, find_name, push_entry};
use crate::{entry, tag};
use ast::kind::Kind;
use ast::{ClassId, FIRST_CLASS, FunId, column, flag};
use words::{is_kind, one_more, word};

// A declaration as an open entry holds it, by what it means.
#[derive(Clone, Copy)]
pub enum OpenDecl {
    Fun(FunId),
    Class(ClassId),
    // A global known before the walk; `mutable` is 1 if it may be assigned to.
    Global { number: u32, mutable: u32 },
    // A local or argument: its let or parameter row, its function, and the slot of a local.
    Variable { row: u32, fun: FunId, slot: u32 },
    // A let of a unit: a global numbered in the walk.
    Toplevel { row: u32, number: u32 },
}

// What a name means, if it is declared, and how far out: the function boundaries between here and a local or argument, 0 for anything else.
#[derive(Clone, Copy)]
pub struct Found {
    pub decl: Option<OpenDecl>,
    pub distance: u32,
}

// The tag and the two values of the entry that holds a declaration.
fn entry_of(d: OpenDecl) -> (u32, u32, u32)
    ensures { (n : ℕ) → (result.0 ≡ tag_of (means d)) × (result.1 ≡ first_of (means d)) × (result.2 ≡ second_of (means d) (number_or n d)) }
{
    match d {
        OpenDecl::Fun(fun) => (tag::FUN, fun.0, 0),
        OpenDecl::Class(class) => (tag::CLASS, class.0, 0),
        OpenDecl::Global { number, mutable } => (tag::GLOBAL, number, mutable),
        OpenDecl::Variable { row, fun, slot: _ } => (tag::VARIABLE, row, fun.0),
        OpenDecl::Toplevel { row, number } => (tag::TOPLEVEL, row, number),
    }
}

// The declaration that an entry of this tag with these two values and this slot holds. A mark declares nothing.
pub fn decl_of(tag: u32, first: u32, second: u32, slot: u32) -> Option<OpenDecl>
    ensures { (meant result ≡ meaning_of tag first second) × ((d : OpenDecl) → result ≡ Some d → (slot_or slot d ≡ slot) × (number_or second d ≡ second)) }
{
    match tag {
        tag::FUN => Some(OpenDecl::Fun(FunId(first))),
        tag::CLASS => Some(OpenDecl::Class(ClassId(first))),
        tag::GLOBAL => Some(OpenDecl::Global {
            number: first,
            mutable: second,
        }),
        tag::VARIABLE => Some(OpenDecl::Variable {
            row: first,
            fun: FunId(second),
            slot,
        }),
        tag::TOPLEVEL => Some(OpenDecl::Toplevel {
            row: first,
            number: second,
        }),
        _ => None,
    }
}

// The declaration of entry `k - 1`; nothing for 0.
fn decl_at(entries: &[u32], k: u32) -> Option<OpenDecl>
    ensures { (meant result ≡ meaning_at entries.now k)
        × ((d : OpenDecl) → result ≡ Some d → (slot_or (slot_at entries.now k) d ≡ slot_at entries.now k) × (number_or (global_at entries.now k) d ≡ global_at entries.now k)) }
{
    if k == 0 {
        return None;
    }
    let i = k - 1;
    decl_of(
        entry_word(entries, i, entry::TAG),
        entry_word(entries, i, entry::FIRST),
        entry_word(entries, i, entry::SECOND),
        entry_word(entries, i, entry::SLOT),
    )
}

// How many entries a name is looked for in: those in use, as far as the buffer has all words of an entry.
fn entries_searched(env: Env, entries: &[u32]) -> u32
    ensures { result ≡ searched (scopes_of env entries.now) }
{
    let whole = entries.len() / 5;
    let count = env.count;
    if (count as usize) < whole {
        return count;
    }
    whole as u32
}

// Is it a local or argument?
fn is_variable(d: Option<OpenDecl>) -> bool
    ensures { result ≡ is_variable (meant d) }
{
    match d {
        Some(OpenDecl::Variable { .. }) => true,
        _ => false,
    }
}

// What name `m` means: the innermost open declaration of it.
pub fn lookup(sheet: &[u32], env: Env, entries: &[u32], m: u32) -> Found
    ensures { (meant result.decl ≡ lookup_meaning (scopes_of env entries.now) m)
        × ((d : OpenDecl) → result.decl ≡ Some d → (slot_or (lookup_slot (scopes_of env entries.now) m) d ≡ lookup_slot (scopes_of env entries.now) m)
        × (number_or (lookup_global (scopes_of env entries.now) m) d ≡ lookup_global (scopes_of env entries.now) m))
        × (result.distance ≡ lookup_distance sheet.now (scopes_of env entries.now) m) }
{
    let n = entries_searched(env, entries);
    let at = find_name(sheet, entries, m, n);
    let decl = decl_at(entries, at.place);
    let distance = if is_variable(decl) { at.marks } else { 0 };
    Found { decl, distance }
}

// The number of a class; 0 of anything else.
pub fn class_number(d: Option<OpenDecl>) -> ClassId
    ensures { result.0 ≡ class_number (meant d) }
{
    match d {
        Some(OpenDecl::Class(class)) => class,
        _ => ClassId(0),
    }
}

// Is it a local or argument of another function than `fun`?
pub fn is_outer(d: OpenDecl, fun: FunId) -> bool
    ensures { result ≡ is_outer_variable (means d) fun.0 }
{
    match d {
        OpenDecl::Variable { fun: own, .. } => own.0 != fun.0,
        _ => false,
    }
}

// The let or parameter row of a local or argument; 0 of anything else.
pub fn row_of(d: OpenDecl) -> u32
    ensures { result ≡ row_of (means d) }
{
    match d {
        OpenDecl::Variable { row, .. } => row,
        _ => 0,
    }
}

// The function of a local or argument; 0 of anything else.
pub fn owner_of(d: OpenDecl) -> FunId
    ensures { result.0 ≡ owner_of (means d) }
{
    match d {
        OpenDecl::Variable { fun, .. } => fun,
        _ => FunId(0),
    }
}

// The slot of a local or argument; 0 of anything else.
pub fn slot_of(d: OpenDecl) -> u32
    ensures { result ≡ slot_or 0 d }
{
    match d {
        OpenDecl::Variable { slot, .. } => slot,
        _ => 0,
    }
}

// Is it a local, and no argument?
pub fn is_local(sheet: &[u32], d: OpenDecl) -> bool
    ensures { result ≡ is_local sheet.now (means d) }
{
    match d {
        OpenDecl::Variable { row, .. } => is_kind(sheet, row, Kind::Let),
        _ => false,
    }
}

// May it be assigned to?
pub fn is_mutable(sheet: &[u32], d: OpenDecl) -> bool
    ensures { result ≡ is_mutable sheet.now (means d) }
{
    match d {
        OpenDecl::Global { mutable, .. } => mutable == flag::MUTABLE,
        OpenDecl::Toplevel { row, .. } => word(sheet, row, column::B) == flag::MUTABLE,
        OpenDecl::Variable { row, .. } => {
            is_kind(sheet, row, Kind::Let) && word(sheet, row, column::B) == flag::MUTABLE
        }
        OpenDecl::Fun(_) | OpenDecl::Class(_) => false,
    }
}

// May what a name means be assigned to?
pub fn is_assignable(sheet: &[u32], decl: Option<OpenDecl>) -> bool
    ensures { result ≡ is_mutable sheet.now (meant decl) }
{
    match decl {
        Some(d) => is_mutable(sheet, d),
        None => false,
    }
}

// What a let declares: its constant's global; in a unit function the function of a hoisted immutable literal, or else a new global; a
// local in any other.
fn declared_let(sheet: &[u32], row: u32, env: Env) -> OpenDecl
    requires { word_at sheet.now row 0 ≡ 29 }
    ensures { (entries : List ℕ) → StandsFor result (new_meaning sheet.now row (scopes_of env entries)) (scopes_of env entries) }
{
    let b = word(sheet, row, column::B);
    if flag::MUTABLE < b {
        return OpenDecl::Global {
            number: b - flag::FIRST_CONSTANT,
            mutable: 0,
        };
    }
    let fun = env.fun;
    if word(sheet, fun.0, column::B) != flag::UNIT_FUNCTION {
        return OpenDecl::Variable {
            row,
            fun,
            slot: env.slot,
        };
    }
    let value = word(sheet, row, column::CHILD);
    if b == 0 && is_kind(sheet, value, Kind::Literal) {
        return OpenDecl::Fun(FunId(word(sheet, value, column::CHILD)));
    }
    OpenDecl::Toplevel {
        row,
        number: env.globals,
    }
}

// What a class, parameter or let row declares in the innermost function.
pub fn declared_by(sheet: &[u32], row: u32, env: Env) -> OpenDecl
    requires { length sheet.now ≤ 16384 }
    ensures { (entries : List ℕ) → StandsFor result (new_meaning sheet.now row (scopes_of env entries)) (scopes_of env entries) }
{
    if is_kind(sheet, row, Kind::Let) {
        return declared_let(sheet, row, env);
    }
    if is_kind(sheet, row, Kind::Class) {
        return OpenDecl::Class(ClassId(FIRST_CLASS + row));
    }
    OpenDecl::Variable {
        row,
        fun: env.fun,
        slot: env.slot,
    }
}

// The next slot after `d` is declared: a local takes one.
fn slot_after(sheet: &[u32], d: OpenDecl, n: u32) -> u32
    ensures { result ≡ (when is_local sheet.now (means d) then one_more n else n) }
{
    if is_local(sheet, d) { one_more(n) } else { n }
}

// The next global number after `d` is declared: a let of a unit takes one.
fn global_after(d: OpenDecl, n: u32) -> u32
    ensures { result ≡ (when is_toplevel (means d) then one_more n else n) }
{
    match d {
        OpenDecl::Toplevel { .. } => one_more(n),
        _ => n,
    }
}

// Declares name `m` as `d`, which must be what the next entry of the open scopes holds of its meaning: its slot is the next one, a let of a unit has the
// next global number. Of any other `d` the contract says nothing.
pub fn define(sheet: &[u32], m: u32, d: OpenDecl, env: Env, entries: &mut [u32]) -> Env
    ensures { (k : Meaning) → StandsFor d k (scopes_of env entries.old)
        → scopes_of result entries.new ≡ push_name sheet.now m k (scopes_of env entries.old) }
{
    let (tag, first, second) = entry_of(d);
    let slot = slot_after(sheet, d, env.slot);
    let globals = global_after(d, env.globals);
    let count = push_entry(entries, env.count, tag, m, first, second, env.slot);
    Env {
        count,
        slot,
        fun: env.fun,
        globals,
    }
}
