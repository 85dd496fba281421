// The questions that follow the walk: 18 and 19 on the parents of classes, 20 and 21 on constructor calls.
#![tactic(auto)]

ghost use Rattle.std.specs.Prelude.{◌≡◌, false, List, [], ◌∷◌, ℕ, ◌*◌, ◌≤◌, length};
ghost use Rattle.definition.specs.Sheet.{a, rows};
ghost use Rattle.definition.specs.Question.{ask, first_no};
ghost use Rattle.outside.specs.Words.{over};
ghost use Rattle.outside.specs.Found.{Tells};
ghost use Rattle.store.specs.Stored.{store_of};
ghost use Rattle.after.specs.Inherited.{parent_in, classes_refusal, methods_in, check_call_in, calls_refusal};
ghost use Rattle.ast.specs.Question.{question_number};
ghost use Rattle.ast.specs.Refused.{refusal_of, refusal_in};
ghost use Rattle.inherit.specs.Answered.{lacks_record, Marked, refusal_at, parent_number, parent_numbers};

use ast::question::{Question, Refusal};
use ast::{ClassId, FIRST_CLASS, column, name};
use climb::{ClimbError, ENDS, NO_RECORD, climb_all};
use outside::records::{Method, NO_METHOD, class_name, has_record, own_method};
use sheet::{arguments, is_class_row};
use store::nodes::{Store, node_before, node_word};
use store::{node, result};
use words::{put_entry, word};

// The parent of a class as the walk stored it, or class 0.
pub fn parent_of(sheet: &[u32], results: &[u32], c: ClassId) -> ClassId
    ensures { (o : Store) (nodes : List ℕ) → result.0 ≡ parent_in sheet.now (store_of o results.now nodes) c.0 }
{
    if is_class_row(sheet, c) {
        return ClassId(word(results, c.0 - FIRST_CLASS, result::ONE));
    }
    ClassId(0)
}

// Is a parent a class without a record? Class 0 is no parent.
fn lacks_record(sheet: &[u32], outside: &[u32], c: ClassId) -> bool
    ensures { result ≡ lacks_record (over outside.now) sheet.now c.0 }
{
    if c.0 != 0 {
        return !has_record(sheet, outside, c);
    }
    false
}

// A question on the class of `row`, answered no.
fn refuse_class(sheet: &[u32], question: Question, row: u32) -> Refusal
    ensures { refusal_of result ≡ ask (question_number question) row (a sheet.now row) false }
{
    Refusal {
        question,
        at: row,
        name: word(sheet, row, column::A),
    }
}

// How the climb over the run of parents ended, as a no of question 18 or 19 or as none.
fn refuse_ending(sheet: &[u32], ending: Result<(), ClimbError>) -> Result<(), Refusal>
    ensures { refusal_in result ≡ refusal_at sheet.now ending }
{
    match ending {
        Ok(()) => Ok(()),
        Err(ClimbError::Circle(row)) => Err(refuse_class(sheet, Question::NoCycle, row)),
        Err(ClimbError::NoRecord(row)) => Err(refuse_class(sheet, Question::ParentRecord, row)),
    }
}

// How a run of parents tells the parent `up` of a class: one of the sheet by its row, another by whether it has a record.
fn parent_number(sheet: &[u32], outside: &[u32], up: ClassId) -> u32
    ensures { result ≡ parent_number (over outside.now) sheet.now up.0 }
{
    if is_class_row(sheet, up) {
        return up.0 - FIRST_CLASS;
    }
    if lacks_record(sheet, outside, up) {
        return NO_RECORD;
    }
    ENDS
}

// Writes the run of parents: place `r` tells the parent of the class of row `r`. A row of another kind has none.
fn list_parents(sheet: &[u32], outside: &[u32], results: &[u32], parents: &mut [u32])
    requires { (length sheet.now ≤ 16384) × (8 * rows sheet.now ≡ length sheet.now) × (length parents.old ≡ rows sheet.now) }
    ensures { (o : Store) (nodes : List ℕ) → parents.new
        ≡ parent_numbers (over outside.now) sheet.now (store_of o results.now nodes) }
{
    for r in 0..(sheet.len() / 8) as u32 {
        let up = parent_of(sheet, results, ClassId(FIRST_CLASS + r));
        put_entry(parents, r, parent_number(sheet, outside, up));
    }
}

// The first no of the questions 18 and 19, with words lent for the run of parents.
fn check_parents(
    sheet: &[u32],
    outside: &[u32],
    results: &[u32],
    parents: &mut [u32],
    climbed: &mut [u32],
) -> Result<(), Refusal>
    requires { (length sheet.now ≤ 16384) × (length sheet.now ≤ 8 * length climbed.old) × (Marked 0 climbed.old)
        × (8 * rows sheet.now ≡ length sheet.now) × (length parents.old ≡ rows sheet.now) }
    ensures { (o : Store) (nodes : List ℕ) → refusal_in result
        ≡ classes_refusal (over outside.now) sheet.now (store_of o results.now nodes) }
{
    list_parents(sheet, outside, results, parents);
    refuse_ending(sheet, climb_all(parents, climbed))
}

// The first no of the questions 18 and 19, classes in row order.
fn check_classes(
    sheet: &[u32],
    outside: &[u32],
    results: &[u32],
    climbed: &mut [u32],
) -> Result<(), Refusal>
    requires { (length sheet.now ≤ 16384) × (length sheet.now ≤ 8 * length climbed.old) × (Marked 0 climbed.old)
        × (8 * rows sheet.now ≡ length sheet.now) }
    ensures { (o : Store) (nodes : List ℕ) → refusal_in result
        ≡ classes_refusal (over outside.now) sheet.now (store_of o results.now nodes) }
{
    let mut parents = [0u32; 2048];
    let n = sheet.len() / 8;
    check_parents(sheet, outside, results, &mut parents[..n], climbed)
}

// The method of name `n` that a class has, its own or inherited.
pub fn find_method(sheet: &[u32], outside: &[u32], results: &[u32], c: ClassId, n: u32) -> Method
    ensures { (o : Store) (nodes : List ℕ)
        → Tells n (methods_in (over outside.now) sheet.now (store_of o results.now nodes)
        (rows sheet.now) c.0) result }
{
    let mut left = sheet.len() / 8;
    let mut at = c.0;
    while 0 < left {
        let own = own_method(sheet, outside, ClassId(at), n);
        let fun = own.fun;
        if fun.0 != 0 {
            return own;
        }
        let up = parent_of(sheet, results, ClassId(at));
        if up.0 == 0 {
            return own;
        }
        at = up.0;
        left -= 1;
    }
    NO_METHOD
}

// The questions 20 and 21 on constructor call `row` of a class. The constructor also takes the new object.
fn check_call(
    sheet: &[u32],
    outside: &[u32],
    results: &[u32],
    row: u32,
    c: ClassId,
) -> Result<(), Refusal>
    ensures { (o : Store) (nodes : List ℕ) (two : ℕ) → refusal_in result
        ≡ check_call_in (over outside.now) sheet.now (store_of o results.now nodes)
        (record { key = row; one = c.0; two = two }) }
{
    let init = find_method(sheet, outside, results, c, name::INIT);
    let at = word(sheet, row, column::CHILD);
    let name = class_name(sheet, outside, c);
    let fun = init.fun;
    if fun.0 == 0 {
        return Err(Refusal {
            question: Question::InitThere,
            at,
            name,
        });
    }
    if arguments(sheet, row) + 1 == init.params {
        return Ok(());
    }
    Err(Refusal {
        question: Question::InitArity,
        at,
        name,
    })
}

// The first no of the questions 20 and 21. The list is walked from the last call back, so that an earlier no replaces a later one.
fn check_ctor_calls(
    sheet: &[u32],
    outside: &[u32],
    results: &[u32],
    nodes: &[u32],
    calls: u32,
) -> Result<(), Refusal>
    ensures { (o : Store) → o.calls ≡ calls → refusal_in result
        ≡ calls_refusal (over outside.now) sheet.now (store_of o results.now nodes.now) }
{
    let mut x = Ok(());
    let mut i = calls;
    while 0 < i {
        i -= 1;
        let call = node_word(nodes, i, node::KEY);
        let class = ClassId(node_word(nodes, i, node::ONE));
        x = check_call(sheet, outside, results, call, class).and(x);
        i = node_before(nodes, i);
    }
    x
}

// The first no of the questions that follow the walk.
pub fn later_refusal(
    sheet: &[u32],
    outside: &[u32],
    results: &[u32],
    nodes: &[u32],
    climbed: &mut [u32],
    calls: u32,
) -> Result<(), Refusal>
    requires { (length sheet.now ≤ 16384) × (length sheet.now ≤ 8 * length climbed.old) × (Marked 0 climbed.old)
        × (8 * rows sheet.now ≡ length sheet.now) }
    ensures { (o : Store) → o.calls ≡ calls → refusal_in result
        ≡ first_no (classes_refusal (over outside.now) sheet.now
        (store_of o results.now nodes.now) ∷ calls_refusal (over outside.now) sheet.now
        (store_of o results.now nodes.now) ∷ []) }
{
    check_classes(sheet, outside, results, climbed)?;
    check_ctor_calls(sheet, outside, results, nodes, calls)
}
