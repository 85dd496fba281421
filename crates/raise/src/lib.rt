// The numbers of functions and classes in answer rows: over a base, which is 2,048 for each entry of a session before this one.
#![tactic(auto)]

ghost use Rattle.std.specs.Prelude.{◌≡◌, ◌*◌, ◌≤◌, T, length};
ghost use Rattle.definition.specs.Basics.{all};
ghost use Rattle.definition.specs.Answer.{raised_function, raised_class, raised_row};
ghost use Rattle.definition.specs.Outcome.{rows_of_words};
ghost use Rattle.raise.specs.RaisedWords.{owner_fits, raised_words};

use ast::FIRST_CLASS;
use ast::code::Code;

// In a walk, functions from this number on, past all rows, are those of earlier entries, told so much higher than their own.
const FIRST_EARLIER: u32 = 2048;

// The number of a function in answer rows: one of the sheet is raised by the base, one of an earlier entry has its own.
#[tactic(auto, using(crate::proofs::NumberLaws::own_function, crate::proofs::NumberLaws::earlier_function))]
pub fn raised_function(base: u32, f: u32) -> u32
    requires { base ≤ 2048000 }
    ensures { result ≡ raised_function base f }
{
    if f < FIRST_EARLIER {
        f + base
    } else {
        f - FIRST_EARLIER
    }
}

// The number of a class in answer rows; those of the core keep theirs.
#[tactic(auto, using(crate::proofs::NumberLaws::core_class, crate::proofs::NumberLaws::other_class, crate::proofs::NumberLaws::function_small))]
pub fn raised_class(base: u32, c: u32) -> u32
    requires { base ≤ 2048000 }
    ensures { result ≡ raised_class base c }
{
    if c < FIRST_CLASS {
        c
    } else {
        FIRST_CLASS + raised_function(base, c - FIRST_CLASS)
    }
}

// The columns of an answer row after its sheet row: the code, and the first two values.
const CODE: usize = 1;

const FIRST: usize = 2;

const SECOND: usize = 3;

// Raises the numbers in an answer row. The function of a local or argument is of this sheet, and only gains the base.
fn raise_row(row: &mut [u32], base: u32)
    requires { (base ≤ 2048000) × (length row.old ≡ 8) × T (owner_fits row.old) }
    ensures { row.new ≡ raised_row base row.old }
{
    let Ok(code) = Code::try_from(row[CODE]) else {
        return;
    };
    match code {
        Code::Fun => row[FIRST] = raised_function(base, row[FIRST]),
        Code::Class | Code::ClassCounts => row[FIRST] = raised_class(base, row[FIRST]),
        Code::Arg | Code::Local => row[SECOND] += base,
        Code::Method => row[SECOND] = raised_function(base, row[SECOND]),
        _ => {}
    }
}

// Raises the numbers in the first `rows` answer rows. Over base 0 nothing is raised: there is no earlier entry.
#[tactic(auto, using(crate::proofs::RowLaws::raised_none))]
pub fn raise_rows(out: &mut [u32], rows: usize, base: u32)
    requires { (base ≤ 2048000) × (8 * rows ≤ length out.old) × T (all owner_fits (rows_of_words rows out.old)) }
    ensures { out.new ≡ raised_words base rows out.old }
{
    if base == 0 {
        return;
    }
    for r in 0..rows {
        raise_row(&mut out[8 * r..8 * r + 8], base);
    }
}
