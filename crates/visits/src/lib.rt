// What jumps, host constants, literals, instanceof and class declarations ask and store. A class declaration is visited before its parts, the
// others after.
#![tactic(auto)]

ghost use Rattle.std.specs.Prelude.{◌≡◌, true, not, ◌||◌, [], ◌∷◌, List, ℕ, eqb};
ghost use Rattle.definition.specs.Basics.{when◌then◌else◌};
ghost use Rattle.definition.specs.Sheet.{is, kind, b};
ghost use Rattle.definition.specs.Walk.{visit};
ghost use Rattle.definition.specs.Outside.{Outside};
ghost use Rattle.machine.specs.Machine.{step_state, write_row_at};
ghost use Rattle.store.specs.Stored.{store_of};
ghost use Rattle.walk.specs.WalkState.{after, state_of, Same};

use ast::code::Code;
use ast::kind::Kind;
use ast::question::{Question, Refusal};
use ast::{ClassId, Decl, FunId, column, name};
use store::nodes::Store;
use store::table::{write_decl, write_row};
use symbols::decl::class_number;
use walk::state::Walker;
use words::{is_kind, word};

// Does a break or continue stand in a loop?
pub fn check_jump(walk: &Walker<'_, '_>, row: u32) -> Result<(), Refusal>
    requires { (is walk.now.sheet.now 23 row || is walk.now.sheet.now 24 row) ≡ true }
    ensures { (O : Outside) → after walk.now result ≡ step_state O walk.now.sheet.now (visit row) (state_of walk.now) }
{
    if walk.in_loop() {
        return Ok(());
    }
    Err(Refusal {
        question: Question::InLoop,
        at: row,
        name: 0,
    })
}

// Does instanceof name a class?
pub fn check_instanceof(walk: &mut Walker<'_, '_>, row: u32) -> Result<(), Refusal>
    requires { kind walk.old.sheet.now row ≡ 55 }
    ensures step { (O : Outside) → after walk.new result ≡ step_state O walk.old.sheet.now (visit row) (state_of walk.old) }
    ensures same { Same walk.old walk.new }
{
    let name = word(walk.sheet, row, column::A);
    let class = class_number(walk.lookup(name).decl);
    if class.0 == 0 {
        return Err(Refusal {
            question: Question::InstanceofClass,
            at: row,
            name,
        });
    }
    write_decl(walk.results, row, Decl::Class { id: class });
    Ok(())
}

// The code of a host constant: is its function the main unit's?
fn main_unit_code(sheet: &[u32], fun: FunId) -> u32
    ensures { result ≡ (when eqb fun.0 (b sheet.now 0) then 7 else 8) }
{
    if fun.0 == word(sheet, 0, column::B) {
        Code::True as u32
    } else {
        Code::False as u32
    }
}

// Is a host constant MAIN_UNIT?
pub fn resolve_host_const(walk: &mut Walker<'_, '_>, row: u32) -> Result<(), Refusal>
    requires { kind walk.old.sheet.now row ≡ 51 }
    ensures step { (O : Outside) → after walk.new result ≡ step_state O walk.old.sheet.now (visit row) (state_of walk.old) }
    ensures same { Same walk.old walk.new }
{
    let name = word(walk.sheet, row, column::A);
    if name != name::MAIN_UNIT {
        return Err(Refusal {
            question: Question::Known,
            at: row,
            name,
        });
    }
    let code = main_unit_code(walk.sheet, walk.env.fun);
    write_row(walk.results, row, [code, 0, 0, 0]);
    Ok(())
}

// A literal notes the function in which it stands.
pub fn note_literal(walk: &mut Walker<'_, '_>, row: u32)
    requires { kind walk.old.sheet.now row ≡ 52 }
    ensures step { (O : Outside) → state_of walk.new ≡ step_state O walk.old.sheet.now (visit row) (state_of walk.old) }
    ensures same { Same walk.old walk.new }
{
    let fun = walk.env.fun;
    write_decl(walk.results, row, Decl::Fun { id: fun });
}

// Is there no parent's name, or does it name a class?
fn names_class(m: u32, class: ClassId) -> bool
    ensures { result ≡ (eqb m 0 || not (eqb class.0 0)) }
{
    m == 0 || class.0 != 0
}

// The parent of class row `c`, stored with it.
fn write_parent(sheet: &[u32], c: u32, class: ClassId, results: &mut [u32])
    ensures { (o : Store) (nodes : List ℕ) → store_of o results.new nodes
        ≡ (when is sheet.now 4 c then write_row_at c (2 ∷ class.0 ∷ []) (store_of o results.old nodes) else store_of o
        results.old nodes) }
{
    if is_kind(sheet, c, Kind::Class) {
        write_decl(results, c, Decl::Class { id: class });
    }
}

// Does a parent name a class?
pub fn resolve_parent(walk: &mut Walker<'_, '_>, row: u32) -> Result<(), Refusal>
    requires { kind walk.old.sheet.now row ≡ 30 }
    ensures step { (O : Outside) → after walk.new result ≡ step_state O walk.old.sheet.now (visit row) (state_of walk.old) }
    ensures same { Same walk.old walk.new }
{
    let sheet = walk.sheet;
    let c = word(sheet, row, column::A);
    let name = word(sheet, c, column::B);
    let class = class_number(walk.lookup(name).decl);
    if !names_class(name, class) {
        return Err(Refusal {
            question: Question::ParentClass,
            at: row,
            name,
        });
    }
    write_parent(sheet, c, class, walk.results);
    Ok(())
}
