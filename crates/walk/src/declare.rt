// Declarations: the names of classes, parameters and lets.
ghost use Rattle.std.specs.Prelude.{◌≡◌, ◌&&◌, not, true, List, [], ◌∷◌, map, ℕ, ◌≤◌, length};
ghost use Rattle.definition.specs.Basics.{when◌then◌else◌, filter};
ghost use Rattle.definition.specs.Sheet.{is, kids as kids_in, kids_of as kids_of_in};
ghost use Rattle.ast.specs.Kind.{kind_number};
ghost use Rattle.ast.specs.Question.{question_number};
ghost use Rattle.definition.specs.Slots.{is_local};
ghost use Rattle.definition.specs.Walk.{literal_let, declare};
ghost use Rattle.definition.specs.Outside.{Outside};
ghost use Rattle.machine.specs.Machine.{one_more, new_meaning, raise_locals, step_store, step_state, run_state};
ghost use Rattle.symbols.specs.OpenScopes.{scopes_of};
ghost use Rattle.symbols.specs.OpenDecls.{means, StandsFor};
ghost use Rattle.store.specs.Stored.{store_of};
ghost use Rattle.walk.specs.WalkState.{after, state_of, Same};

use crate::state::Walker;
use ast::column;
use ast::kind::Kind;
use ast::question::{Question, Refusal};
use sheet::{kids, kids_of};
use store::code::code_of;
use store::nodes::Store;
use store::table::{raise_locals, write_decl};
use symbols::decl::{OpenDecl, declared_by, define, is_local};
use symbols::env::Env;
use words::{is_kind, one_more, word};

// Is `row` a let whose value is a function literal?
fn is_literal_let(sheet: &[u32], row: u32) -> bool
    ensures { result ≡ literal_let sheet.now row }
{
    is_kind(sheet, row, Kind::Let) && is_kind(sheet, word(sheet, row, column::CHILD), Kind::Literal)
}

// The question on a name that is taken: one of its own for a let whose value is no function literal.
fn declare_question(sheet: &[u32], row: u32) -> Question
    ensures { question_number result ≡ (when is sheet.now 29 row && not (literal_let sheet.now row) then 7 else 16) }
{
    if is_kind(sheet, row, Kind::Let) && !is_literal_let(sheet, row) {
        Question::LetFree
    } else {
        Question::NameFree
    }
}

// A local is counted in the innermost function.
fn count_local(sheet: &[u32], env: Env, d: OpenDecl, results: &mut [u32])
    ensures { (o : Store) (nodes : List ℕ) → store_of o results.new nodes
        ≡ (when is_local sheet.now (means d) then raise_locals env.fun.0 (one_more env.slot)
        (store_of o results.old nodes) else store_of o results.old nodes) }
{
    if is_local(sheet, d) {
        let fun = env.fun;
        raise_locals(results, fun, one_more(env.slot));
    }
}

// What a let stores when it is declared as `d`: its local, and its code and values. Any other row stores nothing.
fn store_let(sheet: &[u32], row: u32, env: Env, d: OpenDecl, results: &mut [u32])
    requires { length sheet.now ≤ 16384 }
    ensures { (O : Outside) (o : Store) (entries nodes : List ℕ)
        → StandsFor d (new_meaning sheet.now row (scopes_of env entries)) (scopes_of env entries)
        → store_of o results.new nodes
        ≡ step_store O sheet.now (declare row) (scopes_of env entries) (store_of o results.old nodes) }
{
    if !is_kind(sheet, row, Kind::Let) {
        return;
    }
    count_local(sheet, env, d, results);
    write_decl(results, row, code_of(sheet, d));
}

// `row` declares its name, if that is free in its scope.
pub fn declare(walk: &mut Walker<'_, '_>, row: u32) -> Result<(), Refusal>
    requires { length walk.old.sheet.now ≤ 16384 }
    ensures step { (O : Outside) → after walk.new result ≡ step_state O walk.old.sheet.now (declare row) (state_of walk.old) }
    ensures same { Same walk.old walk.new }
{
    let (sheet, env) = (walk.sheet, walk.env);
    let name = word(sheet, row, column::A);
    if walk.has_local(name) {
        return Err(Refusal {
            question: declare_question(sheet, row),
            at: row,
            name,
        });
    }
    let d = declared_by(sheet, row, env);
    store_let(sheet, row, env, d, walk.results);
    walk.env = define(sheet, name, d, env, walk.entries);
    Ok(())
}

// Declares the children of `row` that are of a kind: the classes of a unit, the parameters of a function.
pub fn declare_kind(walk: &mut Walker<'_, '_>, row: u32, kind: Kind) -> Result<(), Refusal>
    requires { length walk.old.sheet.now ≤ 16384 }
    ensures step { (O : Outside) → after walk.new result
        ≡ run_state O walk.old.sheet.now (map declare (kids_of_in walk.old.sheet.now (kind_number kind) row)) (state_of walk.old) }
    ensures same { Same walk.old walk.new }
{
    for child in kids_of(walk.sheet, row, kind) {
        declare(walk, child)?;
    }
    Ok(())
}

// Declares the lets of block `row` whose values are function literals: they come first.
pub fn hoist_literals(walk: &mut Walker<'_, '_>, row: u32) -> Result<(), Refusal>
    requires { length walk.old.sheet.now ≤ 16384 }
    ensures step { (O : Outside) → after walk.new result
        ≡ run_state O walk.old.sheet.now (map declare (filter (literal_let walk.old.sheet.now) (kids_in walk.old.sheet.now row))) (state_of walk.old) }
    ensures same { Same walk.old walk.new }
{
    for child in kids(walk.sheet, row) {
        if is_literal_let(walk.sheet, child) {
            declare(walk, child)?;
        }
    }
    Ok(())
}
