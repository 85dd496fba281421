// Class records from outside a sheet, and what a class has by its record or, if it is of the sheet, by its rows.
ghost use Rattle.std.specs.Prelude.{◌≡◌};
ghost use Rattle.std.specs.Option.{MatchOption};
ghost use Rattle.definition.specs.Classes.{has_record, class_name, own_methods, arity as arity_of};
ghost use Rattle.outside.specs.Words.{methods_at, over};
ghost use Rattle.outside.specs.Found.{row_record, Records, Tells, recorded_names};
ghost use Rattle.outside.specs.Left.{names_left};
ghost use Rattle.std.specs.Option.{unwrap_or};
ghost use Rattle.ast.specs.Kind.{kind_number};

use crate::layout;
use crate::recorded_names::RecordedNames;
use ast::kind::Kind;
use ast::{ClassId, FIRST_CLASS, FunId, column};
use sheet::{arity, first_named, is_class_row};
use words::{word, word_at};

// The record of a class from outside: its name, where its fields and methods begin and how many there are.
#[derive(Clone, Copy, Debug, PartialEq, Eq)]
pub struct Recorded {
    pub name: u32,
    pub field: u32,
    pub fields: u32,
    pub method: u32,
    pub methods: u32,
}

// A method: its function, and how many parameters that has. Function 0: no method. An Option would say so in two ways, since a record may tell
// of a method that its function is 0.
#[derive(Clone, Copy, Debug, PartialEq, Eq)]
pub struct Method {
    pub fun: FunId,
    pub params: usize,
}

pub const NO_METHOD: Method = Method {
    fun: FunId(0),
    params: 0,
};

// The record of row `i`.
fn record_at(outside: &[u32], i: u32) -> Recorded
    ensures { result ≡ row_record outside.now i }
{
    Recorded {
        name: word(outside, i, layout::CLASS_NAME),
        field: word(outside, i, layout::FIELD),
        fields: word(outside, i, layout::FIELDS),
        method: word(outside, i, layout::METHOD),
        methods: word(outside, i, layout::METHODS),
    }
}

// The record of class `c`.
fn find_record(outside: &[u32], c: ClassId) -> Option<Recorded>
    ensures { Records outside.now c.0 result }
{
    for i in word(outside, 0, layout::NAMES_END)..word(outside, 0, layout::RECORDS_END) {
        if word(outside, i, layout::CLASS) == c.0 {
            return Some(record_at(outside, i));
        }
    }
    None
}

// Has a class a record? Those of the sheet have, and some from outside.
pub fn has_record(sheet: &[u32], outside: &[u32], c: ClassId) -> bool
    ensures { result ≡ has_record (over outside.now) sheet.now c.0 }
{
    is_class_row(sheet, c) || find_record(outside, c).is_some()
}

// The name of a class that has a record.
pub fn class_name(sheet: &[u32], outside: &[u32], c: ClassId) -> u32
    ensures { result ≡ class_name (over outside.now) sheet.now c.0 }
{
    if is_class_row(sheet, c) {
        return word(sheet, c.0 - FIRST_CLASS, column::A);
    }
    match find_record(outside, c) {
        Some(record) => record.name,
        None => 0,
    }
}

// The method of name `n` among `count` methods from place `at` on.
fn recorded_method(outside: &[u32], at: u32, count: u32, n: u32) -> Method
    ensures { Tells n (methods_at outside.now at count) result }
{
    for i in 0..count as usize {
        let place = at as usize + 3 * i;
        if word_at(outside, place) == n {
            return Method {
                fun: FunId(word_at(outside, place + 1)),
                params: word_at(outside, place + 2) as usize,
            };
        }
    }
    NO_METHOD
}

// The method of the sheet that is a function.
fn listed_method(sheet: &[u32], f: Option<u32>) -> Method
    ensures { (result.fun.0 ≡ unwrap_or f 0) × MatchOption f (result.params ≡ 0) (λ row. result.params ≡ arity_of sheet.now row) }
{
    match f {
        Some(row) => Method {
            fun: FunId(row),
            params: arity(sheet, FunId(row)),
        },
        None => NO_METHOD,
    }
}

// The own method of name `n` of a class.
pub fn own_method(sheet: &[u32], outside: &[u32], c: ClassId, n: u32) -> Method
    ensures { Tells n (own_methods (over outside.now) sheet.now c.0) result }
{
    if is_class_row(sheet, c) {
        return listed_method(
            sheet,
            first_named(sheet, c.0 - FIRST_CLASS, Kind::Function, n),
        );
    }
    match find_record(outside, c) {
        Some(record) => recorded_method(outside, record.method, record.methods, n),
        None => NO_METHOD,
    }
}

// The names of a class from outside that are told by rows of a kind: fields, or else methods. A field is one word, a method three.
pub fn recorded_names(outside: &[u32], kind: Kind, c: ClassId) -> RecordedNames<'_>
    ensures { names_left result ≡ recorded_names (over outside.now) (kind_number kind) c.0 }
{
    match find_record(outside, c) {
        None => RecordedNames::none(outside),
        Some(record) => match kind {
            Kind::Field => RecordedNames::spaced(outside, record.field, 1, record.fields),
            _ => RecordedNames::spaced(outside, record.method, 3, record.methods),
        },
    }
}
