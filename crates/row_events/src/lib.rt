// What happens at a row before its parts, after each of them, and after all, by its kind.
#![tactic(auto)]

ghost use Rattle.std.specs.Prelude.{◌≡◌, ◌<◌, ◌≤◌, length};
ghost use Rattle.definition.specs.Basics.{when◌then◌else◌};
ghost use Rattle.definition.specs.Sheet.{a, is, kind};
ghost use Rattle.definition.specs.Walk.{before, after as after_all, after_part, is_part};
ghost use Rattle.definition.specs.Outside.{Outside};
ghost use Rattle.outside.specs.Words.{over};
ghost use Rattle.machine.specs.Machine.{run_state};
ghost use Rattle.walk.specs.WalkState.{after, state_of, Same};
ghost use Rattle.row_events.specs.Prepared.{Prepared};

use assign::check_assign;
use ast::column;
use ast::kind::Kind;
use ast::question::Refusal;
use calls::check_callee;
use idents::resolve_ident;
use imports::define_imports;
use visits::{check_instanceof, check_jump, note_literal, resolve_host_const, resolve_parent};
use walk::declare::{declare, declare_kind, hoist_literals};
use walk::scopes::{begin_loop, close_scope, open_scope};
use walk::state::Walker;
use words::{is_kind, kind_at, word};

// A unit opens a scope for its imports and classes.
pub fn before_unit(walk: &mut Walker<'_, '_>, row: u32) -> Result<(), Refusal>
    requires { (length walk.old.sheet.now ≤ 16384) × (kind walk.old.sheet.now row ≡ 2) }
    ensures step { (O : Outside) → after walk.new result ≡ run_state O walk.old.sheet.now (before walk.old.sheet.now row) (state_of walk.old) }
    ensures same { Same walk.old walk.new }
{
    open_scope(walk, row);
    define_imports(walk, row)?;
    declare_kind(walk, row, Kind::Class)
}

// A function opens a scope for its parameters.
pub fn before_function(walk: &mut Walker<'_, '_>, row: u32) -> Result<(), Refusal>
    requires { (length walk.old.sheet.now ≤ 16384) × (kind walk.old.sheet.now row ≡ 6) }
    ensures step { (O : Outside) → after walk.new result ≡ run_state O walk.old.sheet.now (before walk.old.sheet.now row) (state_of walk.old) }
    ensures same { Same walk.old walk.new }
{
    open_scope(walk, row);
    declare_kind(walk, row, Kind::Parameter)
}

// A block opens a scope and declares its literal lets first.
fn before_block(walk: &mut Walker<'_, '_>, row: u32) -> Result<(), Refusal>
    requires { (length walk.old.sheet.now ≤ 16384) × (kind walk.old.sheet.now row ≡ 25) }
    ensures step { (O : Outside) → after walk.new result ≡ run_state O walk.old.sheet.now (before walk.old.sheet.now row) (state_of walk.old) }
    ensures same { Same walk.old walk.new }
{
    open_scope(walk, row);
    hoist_literals(walk, row)
}

// Before the parts of a row: a unit, function, block or `for` opens a scope; a class declaration asks for its parent.
pub fn before(walk: &mut Walker<'_, '_>, row: u32) -> Result<(), Refusal>
    requires { length walk.old.sheet.now ≤ 16384 }
    ensures step { (O : Outside) → after walk.new result ≡ run_state O walk.old.sheet.now (before walk.old.sheet.now row) (state_of walk.old) }
    ensures same { Same walk.old walk.new }
{
    let Ok(kind) = kind_at(walk.sheet, row) else {
        return Ok(());
    };
    match kind {
        Kind::Unit => before_unit(walk, row),
        Kind::Function => before_function(walk, row),
        Kind::Block => before_block(walk, row),
        Kind::ClassDeclaration => resolve_parent(walk, row),
        Kind::For => {
            open_scope(walk, row);
            Ok(())
        }
        _ => Ok(()),
    }
}

// A let declares its name, unless its value is a literal: then the block has done so, or nothing does.
fn after_let(walk: &mut Walker<'_, '_>, row: u32) -> Result<(), Refusal>
    requires { (length walk.old.sheet.now ≤ 16384) × (kind walk.old.sheet.now row ≡ 29) }
    ensures step { (O : Outside) → after walk.new result ≡ run_state O walk.old.sheet.now (after_all walk.old.sheet.now row) (state_of walk.old) }
    ensures same { Same walk.old walk.new }
{
    if is_kind(
        walk.sheet,
        word(walk.sheet, row, column::CHILD),
        Kind::Literal,
    ) {
        return Ok(());
    }
    declare(walk, row)
}

// After all parts of a row: a scope closes; a let declares its name; an assignment, break or continue is asked about; an identifier, host
// constant or instanceof is looked up; a literal notes where it stands.
pub fn after(walk: &mut Walker<'_, '_>, row: u32) -> Result<(), Refusal>
    requires { (length walk.old.sheet.now ≤ 16384) × (kind walk.old.sheet.now row < 40 → Prepared walk.old.sheet.now walk.old.classes.now) }
    ensures step { (O : Outside) → after walk.new result ≡ run_state O walk.old.sheet.now (after_all walk.old.sheet.now row) (state_of walk.old) }
    ensures same { Same walk.old walk.new }
{
    let Ok(kind) = kind_at(walk.sheet, row) else {
        return Ok(());
    };
    match kind {
        Kind::Unit | Kind::Function | Kind::Block | Kind::For => {
            close_scope(walk);
            Ok(())
        }
        Kind::Let => after_let(walk, row),
        Kind::Assign => check_assign(walk, row),
        Kind::Break | Kind::Continue => check_jump(walk, row),
        Kind::Identifier => resolve_ident(walk, row),
        Kind::HostConstant => resolve_host_const(walk, row),
        Kind::Instanceof => check_instanceof(walk, row),
        Kind::Literal => {
            note_literal(walk, row);
            Ok(())
        }
        _ => Ok(()),
    }
}

// After part `i` of `row`: the checks on a call's callee; a `for` comes to its loop after init and test.
pub fn after_part(walk: &mut Walker<'_, '_>, row: u32, i: usize) -> Result<(), Refusal>
    ensures step { after walk.new result
        ≡ run_state (over walk.old.outside.now) walk.old.sheet.now (after_part walk.old.sheet.now row i) (state_of walk.old) }
    ensures same { Same walk.old walk.new }
{
    if is_kind(walk.sheet, row, Kind::Call) && i == 0 {
        return check_callee(walk, row);
    }
    if is_kind(walk.sheet, row, Kind::For) && i == 1 {
        begin_loop(walk);
    }
    Ok(())
}

// Is row `k` walked as a part: a unit, a function, a statement, an expression or a pair? Statements and what follows them have the highest numbers.
pub fn is_part(sheet: &[u32], k: u32) -> bool
    ensures { result ≡ is_part sheet.now k }
{
    let kind = word(sheet, k, column::KIND);
    kind == Kind::Unit as u32
        || kind == Kind::Function as u32
        || Kind::ExpressionStatement as u32 <= kind
}

// The row whose children are the parts of `row`: a class declaration's are the methods of its class.
pub fn parts_of(sheet: &[u32], row: u32) -> u32
    ensures { result ≡ (when is sheet.now 30 row then a sheet.now row else row) }
{
    if is_kind(sheet, row, Kind::ClassDeclaration) {
        word(sheet, row, column::A)
    } else {
        row
    }
}
