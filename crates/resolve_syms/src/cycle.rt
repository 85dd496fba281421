// The resolvers of statements, expressions and functions: a cycle of calls over the rows of a sheet. `left` bounds the depth of the walk, and falls by
// one with each row that is gone into.
#![tactic(auto)]

ghost use Rattle.std.specs.Prelude.{◌≡◌, ◌<◌};
ghost use Rattle.definition.specs.Sheet.{kind};
ghost use Rattle.outside.specs.Words.{over};
ghost use Rattle.walk.specs.WalkState.{after, state_of, Same};
ghost use Rattle.row_events.specs.Prepared.{Prepared};
ghost use Rattle.resolve_syms.specs.Walked.{walked, parts_walked};

use ast::column;
use ast::kind::Kind;
use ast::question::Refusal;
use row_events::{after, after_part, before, before_function, is_part, parts_of};
use sheet::child_rows::kids;
use walk::scopes::close_scope;
use walk::state::Walker;
use words::word;

// A function: its scope with its parameters, then its body.
#[cycle(resolvers)]
fn resolve_fun(walk: &mut Walker<'_, '_>, row: u32, left: usize) -> Result<(), Refusal>
    requires { (Prepared walk.old.sheet.now walk.old.classes.now) × (kind walk.old.sheet.now row ≡ 6) }
    ensures step { after walk.new result ≡ walked (over walk.old.outside.now) left walk.old.sheet.now row (state_of walk.old) }
    ensures same { Same walk.old walk.new }
{
    if left == 0 {
        return Ok(());
    }
    before_function(walk, row)?;
    resolve_parts(walk, row, left - 1)?;
    close_scope(walk);
    Ok(())
}

// A statement, or a unit: what happens before its parts, the parts left to right, and what happens after them.
#[cycle(resolvers)]
fn resolve_stmt(walk: &mut Walker<'_, '_>, row: u32, left: usize) -> Result<(), Refusal>
    requires { Prepared walk.old.sheet.now walk.old.classes.now }
    ensures step { after walk.new result ≡ walked (over walk.old.outside.now) left walk.old.sheet.now row (state_of walk.old) }
    ensures same { Same walk.old walk.new }
{
    if left == 0 {
        return Ok(());
    }
    before(walk, row)?;
    resolve_parts(walk, row, left - 1)?;
    after(walk, row)?;
    Ok(())
}

// An expression: its parts left to right, then what it means.
#[cycle(resolvers)]
fn resolve_expr(walk: &mut Walker<'_, '_>, row: u32, left: usize) -> Result<(), Refusal>
    requires { (Prepared walk.old.sheet.now walk.old.classes.now) × (39 < kind walk.old.sheet.now row) }
    ensures step { after walk.new result ≡ walked (over walk.old.outside.now) left walk.old.sheet.now row (state_of walk.old) }
    ensures same { Same walk.old walk.new }
{
    if left == 0 {
        return Ok(());
    }
    resolve_parts(walk, row, left - 1)?;
    after(walk, row)
}

// A row that is walked as a part, by its kind.
#[cycle(resolvers)]
fn resolve_any(walk: &mut Walker<'_, '_>, row: u32, left: usize) -> Result<(), Refusal>
    requires { Prepared walk.old.sheet.now walk.old.classes.now }
    ensures step { after walk.new result ≡ walked (over walk.old.outside.now) left walk.old.sheet.now row (state_of walk.old) }
    ensures same { Same walk.old walk.new }
{
    let kind = word(walk.sheet, row, column::KIND);
    if kind == Kind::Function as u32 {
        resolve_fun(walk, row, left)
    } else if Kind::Identifier as u32 <= kind {
        resolve_expr(walk, row, left)
    } else {
        resolve_stmt(walk, row, left)
    }
}

// The parts of row `row`, left to right. A refused walk returns at once.
#[cycle(resolvers)]
pub fn resolve_parts(walk: &mut Walker<'_, '_>, row: u32, left: usize) -> Result<(), Refusal>
    requires { Prepared walk.old.sheet.now walk.old.classes.now }
    ensures step { after walk.new result ≡ parts_walked (over walk.old.outside.now) left walk.old.sheet.now row (state_of walk.old) }
    ensures same { Same walk.old walk.new }
{
    let mut index: usize = 0;
    for part in kids(walk.sheet, parts_of(walk.sheet, row)) {
        if is_part(walk.sheet, part) {
            resolve_any(walk, part, left)?;
            after_part(walk, row, index)?;
            index += 1;
        }
    }
    Ok(())
}
