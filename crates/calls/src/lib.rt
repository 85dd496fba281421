// Calls: the questions on a callee, once it is resolved and before the arguments are.
#![tactic(auto)]

ghost use Rattle.std.specs.Prelude.{◌≡◌};
ghost use Rattle.ast.specs.Question.{no_of};
ghost use Rattle.definition.specs.Sheet.{kind};
ghost use Rattle.definition.specs.Walk.{visit};
ghost use Rattle.machine.specs.Machine.{constructed_class, receiver_class, step_state};
ghost use Rattle.outside.specs.Words.{over};
ghost use Rattle.calls.specs.Callee.{method_question};
ghost use Rattle.walk.specs.WalkState.{after, scopes_in, state_of, Same};

use ast::kind::Kind;
use ast::question::{Question, Refusal};
use ast::{ClassId, Decl, column};
use outside::records::{Method, has_record, own_method};
use sheet::arguments;
use store::nodes::{Node, append_call};
use store::table::{mark_hidden, write_decl};
use symbols::decl::class_number;
use walk::state::Walker;
use words::{is_kind, word};

// The class that call `row` constructs, or 0: its callee is an identifier that means it.
fn constructed_class(walk: &Walker<'_, '_>, row: u32) -> ClassId
    ensures { result.0 ≡ constructed_class walk.now.sheet.now row (scopes_in walk.now) }
{
    let callee = word(walk.sheet, row, column::CHILD);
    if !is_kind(walk.sheet, callee, Kind::Identifier) {
        return ClassId(0);
    }
    class_number(walk.lookup(word(walk.sheet, callee, column::A)).decl)
}

// The class on which call `row` calls a method, or 0: its callee is a member of an identifier that means the class.
fn receiver_class(walk: &Walker<'_, '_>, row: u32) -> ClassId
    ensures { result.0 ≡ receiver_class walk.now.sheet.now row (scopes_in walk.now) }
{
    let callee = word(walk.sheet, row, column::CHILD);
    let base = word(walk.sheet, callee, column::CHILD);
    if !is_kind(walk.sheet, callee, Kind::Member) || !is_kind(walk.sheet, base, Kind::Identifier) {
        return ClassId(0);
    }
    class_number(walk.lookup(word(walk.sheet, base, column::A)).decl)
}

// Has a class called as a constructor a record? The call is kept: its constructor is asked about after the walk.
fn construct(walk: &mut Walker<'_, '_>, row: u32, class: ClassId) -> Result<(), Refusal>
    requires { (kind walk.old.sheet.now row ≡ 59) × (class.0 ≡ 0 → ⊥)
        × (class.0 ≡ constructed_class walk.old.sheet.now row (scopes_in walk.old)) }
    ensures step { after walk.new result ≡ step_state (over walk.old.outside.now) walk.old.sheet.now (visit row) (state_of walk.old) }
    ensures same { Same walk.old walk.new }
{
    let callee = word(walk.sheet, row, column::CHILD);
    if !has_record(walk.sheet, walk.outside, class) {
        return Err(Refusal {
            question: Question::ConstructedRecord,
            at: callee,
            name: word(walk.sheet, callee, column::A),
        });
    }
    let call = Node {
        key: row,
        one: class.0,
        two: 0,
    };
    let store = walk.store;
    walk.store = append_call(store, walk.nodes, call);
    Ok(())
}

// Has the class a record, has it the method, and that as many parameters as the call `row` has arguments?
fn ask_method(
    sheet: &[u32],
    outside: &[u32],
    row: u32,
    class: ClassId,
    m: Method,
) -> Result<(), Question>
    ensures { no_of result ≡ method_question (over outside.now) sheet.now row class.0 m.fun.0 m.params }
{
    if !has_record(sheet, outside, class) {
        return Err(Question::Known);
    }
    if m.fun.0 == 0 {
        return Err(Question::MethodThere);
    }
    if arguments(sheet, row) != m.params {
        return Err(Question::MethodArity);
    }
    Ok(())
}

// A method called on a class: its questions; then the callee means the method, and its base gives no answer row.
fn call_method(walk: &mut Walker<'_, '_>, row: u32, class: ClassId) -> Result<(), Refusal>
    requires { (kind walk.old.sheet.now row ≡ 59) × (class.0 ≡ 0 → ⊥)
        × (class.0 ≡ receiver_class walk.old.sheet.now row (scopes_in walk.old)) }
    ensures step { after walk.new result ≡ step_state (over walk.old.outside.now) walk.old.sheet.now (visit row) (state_of walk.old) }
    ensures same { Same walk.old walk.new }
{
    let sheet = walk.sheet;
    let callee = word(sheet, row, column::CHILD);
    let name = word(sheet, callee, column::A);
    let method = own_method(sheet, walk.outside, class, name);
    if let Err(question) = ask_method(sheet, walk.outside, row, class, method) {
        return Err(Refusal {
            question,
            at: callee,
            name,
        });
    }
    mark_hidden(walk.results, word(sheet, callee, column::CHILD));
    write_decl(walk.results, callee, Decl::Fun { id: method.fun });
    Ok(())
}

// The checks on the callee of call `row`.
pub fn check_callee(walk: &mut Walker<'_, '_>, row: u32) -> Result<(), Refusal>
    requires { kind walk.old.sheet.now row ≡ 59 }
    ensures step { after walk.new result ≡ step_state (over walk.old.outside.now) walk.old.sheet.now (visit row) (state_of walk.old) }
    ensures same { Same walk.old walk.new }
{
    let class = constructed_class(walk, row);
    if class.0 != 0 {
        return construct(walk, row, class);
    }
    let receiver = receiver_class(walk, row);
    if receiver.0 != 0 {
        return call_method(walk, row, receiver);
    }
    Ok(())
}
