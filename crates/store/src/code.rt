// What a declaration is told as in an answer row: document 01's `Decl`, whose code and values are the row's.
ghost use Rattle.std.specs.Prelude.{◌≡◌, ℕ, ◌≤◌, length};
ghost use Rattle.ast.specs.Decl.{code_and_values};
ghost use Rattle.definition.specs.Meaning.{variable};
ghost use Rattle.machine.specs.Machine.{four_words, code_of, seen_in};
ghost use Rattle.symbols.specs.OpenDecls.{means, slot_or, number_or};
ghost use Rattle.store.specs.Stored.{store_of};

use crate::nodes::{Store, index_of};
use crate::result;
use ast::kind::Kind;
use ast::{Decl, FunId, column, flag};
use sheet::param_index;
use symbols::decl::{OpenDecl, is_mutable, is_outer, row_of};
use words::{is_kind, word};

// An argument or a local.
fn variable_code(sheet: &[u32], row: u32, fun: FunId, slot: u32) -> Decl
    requires { length sheet.now ≤ 16384 }
    ensures { (g : ℕ) → code_and_values result ≡ four_words (code_of sheet.now (variable row fun.0) slot g) }
{
    if is_kind(sheet, row, Kind::Parameter) {
        let idx = param_index(sheet, fun, row);
        return Decl::Arg { idx, src_fun: fun };
    }
    Decl::Local {
        idx: slot,
        src_fun: fun,
        mutable: word(sheet, row, column::B) == flag::MUTABLE,
    }
}

// A declaration, seen from its own function.
pub fn code_of(sheet: &[u32], d: OpenDecl) -> Decl
    requires { length sheet.now ≤ 16384 }
    ensures { (k g : ℕ) → code_and_values result ≡ four_words (code_of sheet.now (means d) (slot_or k d) (number_or g d)) }
{
    match d {
        OpenDecl::Fun(id) => Decl::Fun { id },
        OpenDecl::Class(id) => Decl::Class { id },
        OpenDecl::Global { number, mutable } => Decl::Global {
            idx: number,
            mutable: mutable == flag::MUTABLE,
        },
        OpenDecl::Variable { row, fun, slot } => variable_code(sheet, row, fun, slot),
        OpenDecl::Toplevel { row, number } => Decl::Global {
            idx: number,
            mutable: word(sheet, row, column::B) == flag::MUTABLE,
        },
    }
}

// A declaration, seen from function `fun`: the index of a capture, if it is a local or argument of another.
pub fn seen_in(sheet: &[u32], d: OpenDecl, fun: FunId, results: &[u32], nodes: &[u32]) -> Decl
    requires { length sheet.now ≤ 16384 }
    ensures { (o : Store) (k g : ℕ) → code_and_values result
        ≡ four_words (seen_in sheet.now (means d) (slot_or k d) (number_or g d) fun.0 (store_of o results.now nodes.now)) }
{
    if !is_outer(d, fun) {
        return code_of(sheet, d);
    }
    let last = word(results, fun.0, result::CAPTURES);
    Decl::Captured {
        idx: index_of(nodes, last, row_of(d)),
        mutable: is_mutable(sheet, d),
    }
}
