// Identifiers: what one means where it stands, and which functions around capture it.
#![tactic(auto)]

ghost use Rattle.std.specs.Prelude.{◌≡◌, ◌≤◌, eqb, length};
ghost use Rattle.ast.specs.Question.{question_number};
ghost use Rattle.definition.specs.Basics.{when◌then◌else◌};
ghost use Rattle.definition.specs.Sheet.{kind};
ghost use Rattle.definition.specs.Outside.{Outside};
ghost use Rattle.definition.specs.Meaning.{row_of, owner_of};
ghost use Rattle.definition.specs.Walk.{visit};
ghost use Rattle.machine.specs.Machine.{is_outer_variable, add_capture, open_functions, step_state};
ghost use Rattle.symbols.specs.OpenDecls.{means, slot_or};
ghost use Rattle.walk.specs.WalkState.{after, scopes_in, state_of, stored_of, Same};

use ast::question::{Question, Refusal};
use ast::{column, name};
use store::nodes::Node;
use store::table::write_use;
use symbols::decl::{OpenDecl, is_outer, owner_of, row_of, slot_of};
use walk::state::Walker;
use words::word;

// The question on an undeclared name.
fn undeclared(name: u32) -> Question
    ensures { question_number result ≡ (when eqb name 22 then 9 else 8) }
{
    if name == name::NULL {
        Question::NullDeclared
    } else {
        Question::Declared
    }
}

// A local or argument that is used is captured by every function around, out to its own. Most belong to the innermost function,
// where none captures them: then the open entries are not searched.
fn capture(walk: &mut Walker<'_, '_>, d: OpenDecl)
    ensures step { stored_of walk.new
        ≡ (when is_outer_variable (means d) walk.old.env.fun.0
        then add_capture (open_functions walk.old.sheet.now (scopes_in walk.old))
        (record { key = row_of (means d); one = owner_of (means d); two = slot_or 0 d })
        (stored_of walk.old)
        else stored_of walk.old) }
    ensures scopes { scopes_in walk.new ≡ scopes_in walk.old }
    ensures same { Same walk.old walk.new }
{
    if !is_outer(d, walk.env.fun) {
        return;
    }
    let x = Node {
        key: row_of(d),
        one: owner_of(d).0,
        two: slot_of(d),
    };
    // It ends at a function that has it: an identifier in that function lies in those further out too, so they have it.
    let mut count = walk.env.count;
    while let Some(mark) = walk.innermost_function(count) {
        if mark.fun == x.one || walk.has_captured(mark.fun, x.key) {
            return;
        }
        walk.append_capture(mark.fun, x);
        count = mark.at;
    }
}

// An identifier: is it declared? Then its captures, what it means, and how far out that is.
pub fn resolve_ident(walk: &mut Walker<'_, '_>, row: u32) -> Result<(), Refusal>
    requires { (length walk.old.sheet.now ≤ 16384) × (kind walk.old.sheet.now row ≡ 50) }
    ensures step { (O : Outside) → after walk.new result ≡ step_state O walk.old.sheet.now (visit row) (state_of walk.old) }
    ensures same { Same walk.old walk.new }
{
    let sheet = walk.sheet;
    let name = word(sheet, row, column::A);
    let found = walk.lookup(name);
    let Some(decl) = found.decl else {
        return Err(Refusal {
            question: undeclared(name),
            at: row,
            name,
        });
    };
    capture(walk, decl);
    let x = walk.seen_in(decl);
    write_use(walk.results, row, x, found.distance);
    Ok(())
}
