// The tables of question 3: what stands in the columns of each kind, and which children follow which. They are written as
// matches, which the compiler turns into constant data; a constant array it would build on the stack at every read.
// The states of a child list are numbers: they are the rows of a table, and most stand for a rest of a list that has no name.
#![tactic(auto)]

ghost use Rattle.std.specs.Prelude.{◌≡◌, ◌+◌, ◌/◌, ◌%◌, eqb};
ghost use Rattle.ast.specs.Kind.{kind_number};
ghost use Rattle.shapes.specs.States.{entry_of, kind_table, state_table};
ghost use Rattle.shapes.specs.Numbers.{sort_number, rule_number};

pub mod rule;
pub mod sort;

use crate::rule::Rule;
use crate::sort::Sort;
use ast::kind::Kind;

// The sort of a kind among children.
pub fn sort_of(kind: Kind) -> Sort
    ensures { sort_number result ≡ entry_of kind_table (kind_number kind) 0 }
{
    match kind {
        Kind::Header => Sort::Header,
        Kind::Unit => Sort::Unit,
        Kind::Import => Sort::Import,
        Kind::Class => Sort::Class,
        Kind::Function => Sort::Function,
        Kind::FunctionExport => Sort::FunctionExport,
        Kind::ConstantExport => Sort::ConstantExport,
        Kind::Listed => Sort::Listed,
        Kind::Field => Sort::Field,
        Kind::Parameter => Sort::Parameter,
        Kind::Pair => Sort::Pair,
        Kind::ExpressionStatement
        | Kind::Assign
        | Kind::Return
        | Kind::Break
        | Kind::Continue
        | Kind::Block
        | Kind::If
        | Kind::For
        | Kind::Assert
        | Kind::Let
        | Kind::ClassDeclaration => Sort::Statement,
        Kind::Nil
        | Kind::True
        | Kind::False
        | Kind::Integer
        | Kind::Float
        | Kind::String
        | Kind::Bytes
        | Kind::Array
        | Kind::Dict
        | Kind::Identifier
        | Kind::HostConstant
        | Kind::Literal
        | Kind::Index
        | Kind::Member
        | Kind::Instanceof
        | Kind::Unary
        | Kind::Binary
        | Kind::Ternary
        | Kind::Call => Sort::Expression,
    }
}

// The state in which the child list of a kind starts.
pub fn start_of(kind: Kind) -> u32
    ensures { result ≡ entry_of kind_table (kind_number kind) 1 }
{
    match kind {
        Kind::FunctionExport
        | Kind::ConstantExport
        | Kind::Listed
        | Kind::Field
        | Kind::Parameter
        | Kind::Break
        | Kind::Continue
        | Kind::ClassDeclaration
        | Kind::Nil
        | Kind::True
        | Kind::False
        | Kind::Integer
        | Kind::Float
        | Kind::String
        | Kind::Bytes
        | Kind::Identifier
        | Kind::HostConstant => 1,
        Kind::Header => 2,
        Kind::Unit => 3,
        Kind::Import => 4,
        Kind::Class => 5,
        Kind::Function => 6,
        Kind::ExpressionStatement
        | Kind::Return
        | Kind::Assert
        | Kind::Let
        | Kind::Pair
        | Kind::Member
        | Kind::Instanceof
        | Kind::Unary => 7,
        Kind::Assign | Kind::Index | Kind::Binary => 8,
        Kind::Block => 9,
        Kind::If => 10,
        Kind::For => 11,
        Kind::Array => 12,
        Kind::Dict => 13,
        Kind::Literal => 14,
        Kind::Ternary => 15,
        Kind::Call => 16,
    }
}

// The rule of column a of a kind.
pub fn rule_a(kind: Kind) -> Rule
    ensures { rule_number result ≡ entry_of kind_table (kind_number kind) 2 }
{
    match kind {
        Kind::Header => Rule::Globals,
        Kind::Import => Rule::UnitRow,
        Kind::Class
        | Kind::FunctionExport
        | Kind::ConstantExport
        | Kind::Listed
        | Kind::Field
        | Kind::Parameter
        | Kind::Let
        | Kind::Identifier
        | Kind::HostConstant
        | Kind::Member
        | Kind::Instanceof => Rule::Name,
        Kind::Function => Rule::NameOrZero,
        Kind::ClassDeclaration => Rule::ClassRow,
        Kind::Literal => Rule::ClassRowOrZero,
        Kind::Integer
        | Kind::Float
        | Kind::String
        | Kind::Bytes
        | Kind::Pair
        | Kind::Unary
        | Kind::Binary => Rule::Any,
        _ => Rule::Zero,
    }
}

// The rule of column b of a kind.
pub fn rule_b(kind: Kind) -> Rule
    ensures { rule_number result ≡ entry_of kind_table (kind_number kind) 3 }
{
    match kind {
        Kind::Header => Rule::FunctionRowOrZero,
        Kind::Import | Kind::Function => Rule::Bit,
        Kind::Class => Rule::NameOrZero,
        Kind::FunctionExport => Rule::FunctionRow,
        Kind::ConstantExport => Rule::Global,
        Kind::Let => Rule::Mode,
        Kind::Integer
        | Kind::Float
        | Kind::String
        | Kind::Bytes
        | Kind::Pair
        | Kind::Unary
        | Kind::Binary => Rule::Any,
        _ => Rule::Zero,
    }
}

// The state after a child, by 16 times the state before it and the sort of the child. No list fits state 0.
fn state_by_key(key: u32) -> u32
    ensures { result ≡ entry_of state_table (key / 16) (key % 16 + 1) }
{
    match key {
        52 | 107 | 124 | 228 | 276 | 292 | 308 | 379 | 411 => 1,
        33 => 2,
        50 => 3,
        71 => 4,
        88 => 5,
        105 => 6,
        140 => 7,
        252 => 8,
        155 => 9,
        204 | 268 => 12,
        218 => 13,
        51 | 275 | 291 | 307 => 17,
        53 | 293 => 18,
        54 | 294 | 310 => 19,
        84 | 324 => 20,
        172 => 21,
        187 => 22,
        347 => 23,
        364 => 24,
        395 => 25,
        _ => 0,
    }
}

// The state after a child of a sort.
#[inline(always)]
pub fn next_state(state: u32, sort: Sort) -> u32
    ensures { result ≡ entry_of state_table state (sort_number sort + 1) }
{
    if state < 26 {
        state_by_key(16 * state + sort as u32)
    } else {
        0
    }
}

// May a child list end in this state?
pub fn may_end(state: u32) -> bool
    ensures { result ≡ eqb (entry_of state_table state 0) 1 }
{
    matches!(state, 1 | 2 | 4 | 5 | 9 | 12 | 13 | 20 | 23)
}
