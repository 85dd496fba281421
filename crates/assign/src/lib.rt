// Assignments: the question on a name, and the fields that they register.
#![tactic(auto)]

ghost use Rattle.std.specs.Prelude.{◌≡◌};
ghost use Rattle.classes.specs.Table.{ClassTable};
ghost use Rattle.definition.specs.Sheet.{kind, child};
ghost use Rattle.definition.specs.Walk.{visit};
ghost use Rattle.definition.specs.Outside.{Outside};
ghost use Rattle.machine.specs.Machine.{step_state};
ghost use Rattle.walk.specs.WalkState.{after, state_of, Same};

use ast::column;
use ast::kind::Kind;
use ast::question::{Question, Refusal};
use sheet::has_named;
use symbols::decl::is_assignable;
use walk::state::Walker;
use words::{entry_at, is_kind, word};

// Is an assigned identifier mutable?
fn assign_name(walk: &Walker<'_, '_>, row: u32) -> Result<(), Refusal>
    requires { (kind walk.now.sheet.now row ≡ 21) × (kind walk.now.sheet.now (child walk.now.sheet.now row) ≡ 50) }
    ensures { (O : Outside) → after walk.now result ≡ step_state O walk.now.sheet.now (visit row) (state_of walk.now) }
{
    let target = word(walk.sheet, row, column::CHILD);
    let name = word(walk.sheet, target, column::A);
    let found = walk.lookup(name);
    if is_assignable(walk.sheet, found.decl) {
        return Ok(());
    }
    Err(Refusal {
        question: Question::Mutable,
        at: row,
        name,
    })
}

// A member that is assigned to is a field of the innermost function's class, if it has one and does not list it.
fn assign_member(walk: &mut Walker<'_, '_>, row: u32)
    requires { (ClassTable walk.old.sheet.now walk.old.classes.now) × (kind walk.old.sheet.now row ≡ 21)
        × (kind walk.old.sheet.now (child walk.old.sheet.now row) ≡ 54) }
    ensures step { (O : Outside) → state_of walk.new ≡ step_state O walk.old.sheet.now (visit row) (state_of walk.old) }
    ensures same { Same walk.old walk.new }
{
    let sheet = walk.sheet;
    let fun = walk.env.fun;
    let class = entry_at(walk.classes, fun.0);
    let target = word(sheet, row, column::CHILD);
    let name = word(sheet, target, column::A);
    if class == 0 {
        return;
    }
    if has_named(sheet, class, Kind::Field, name) {
        return;
    }
    walk.reg_field(class, name);
}

// An assignment, after its sides are resolved.
pub fn check_assign(walk: &mut Walker<'_, '_>, row: u32) -> Result<(), Refusal>
    requires { (ClassTable walk.old.sheet.now walk.old.classes.now) × (kind walk.old.sheet.now row ≡ 21) }
    ensures step { (O : Outside) → after walk.new result ≡ step_state O walk.old.sheet.now (visit row) (state_of walk.old) }
    ensures same { Same walk.old walk.new }
{
    let assigned = word(walk.sheet, row, column::CHILD);
    if is_kind(walk.sheet, assigned, Kind::Identifier) {
        return assign_name(walk, row);
    }
    if is_kind(walk.sheet, assigned, Kind::Member) {
        assign_member(walk, row);
    }
    Ok(())
}
