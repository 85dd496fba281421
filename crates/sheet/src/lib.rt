// The child lists of a sheet, and what is found in them.
#![tactic(auto)]

ghost use Rattle.std.specs.Prelude.{◌≡◌, map, ◌≤◌, eqb, length};
ghost use Rattle.std.specs.List.{find, slice_get};
ghost use Rattle.ast.specs.Kind.{kind_number};
ghost use Rattle.definition.specs.Basics.{first, place, ◌∈?◌};
ghost use Rattle.definition.specs.Sheet.{a, kids as kids_in, kids_of as kids_of_in};
ghost use Rattle.definition.specs.Meaning.{named, nothing};
ghost use Rattle.definition.specs.Classes.{of_sheet, arity as arity_of};
ghost use Rattle.definition.specs.Question.{arguments as arguments_of};
ghost use Rattle.definition.specs.Walk.{seen};
ghost use Rattle.sheet.specs.Exports.{export_of};
ghost use Rattle.std.specs.Option.{unwrap_or};

pub mod child_rows;

pub use crate::child_rows::{kids, kids_of, siblings_after};
use ast::kind::Kind;
use ast::{ClassId, FIRST_CLASS, FunId, column};
use words::{is_kind, word};

// The first child of `row` that is of a kind and has name `n`.
pub fn first_named(sheet: &[u32], row: u32, kind: Kind, n: u32) -> Option<u32>
    ensures { result ≡ find (λ k. eqb (a sheet.now k) n) (kids_of_in sheet.now (kind_number kind) row) }
{
    kids_of(sheet, row, kind).find(|&k| word(sheet, k, column::A) == n)
}

// The first child of `row` that is of a kind.
pub fn first_of(sheet: &[u32], row: u32, kind: Kind) -> Option<u32>
    ensures { result ≡ slice_get (kids_of_in sheet.now (kind_number kind) row) 0 }
{
    kids_of(sheet, row, kind).next()
}

// How many parameters a function has.
pub fn arity(sheet: &[u32], f: FunId) -> usize
    ensures { result ≡ arity_of sheet.now f.0 }
{
    kids_of(sheet, f.0, Kind::Parameter).count()
}

// How many arguments call `row` has: all children but the first, its callee.
pub fn arguments(sheet: &[u32], row: u32) -> usize
    ensures { result ≡ arguments_of sheet.now row }
{
    kids(sheet, row).count().saturating_sub(1)
}

// Is a class of the sheet: does its number lead to a class row?
pub fn is_class_row(sheet: &[u32], c: ClassId) -> bool
    ensures { result ≡ of_sheet sheet.now c.0 }
{
    c.0 >= FIRST_CLASS && is_kind(sheet, c.0 - FIRST_CLASS, Kind::Class)
}

// The place of `row` among the parameters of a function; their number if it is none of them.
pub fn param_index(sheet: &[u32], f: FunId, row: u32) -> u32
    requires { length sheet.now ≤ 16384 }
    ensures { result ≡ place (eqb row) (kids_of_in sheet.now 11 f.0) }
{
    kids_of(sheet, f.0, Kind::Parameter)
        .take_while(|&k| k != row)
        .count() as u32
}

// Has `row` a child of a kind that has name `n`?
pub fn has_named(sheet: &[u32], row: u32, kind: Kind, n: u32) -> bool
    ensures { result ≡ (n ∈? map (a sheet.now) (kids_of_in sheet.now (kind_number kind) row)) }
{
    kids_of(sheet, row, kind).any(|k| word(sheet, k, column::A) == n)
}

// The export row that import `i` of unit `u` finds for name `n`: a function, a class, a constant. A unit sees nothing of itself.
pub fn find_export(sheet: &[u32], u: u32, i: u32, n: u32) -> Option<u32>
    ensures { export_of sheet.now (unwrap_or result 0) ≡ (first (λ y. eqb y.name n) (named 0 nothing) (seen sheet.now u i)).means }
{
    let unit = word(sheet, i, column::A);
    if unit == u {
        return None;
    }
    first_named(sheet, unit, Kind::FunctionExport, n)
        .or_else(|| first_named(sheet, unit, Kind::Class, n))
        .or_else(|| first_named(sheet, unit, Kind::ConstantExport, n))
}
