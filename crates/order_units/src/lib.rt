// Which unit starts first (document 02, F-10): an order of a sheet's units in which each comes after all that it imports, the lowest ready one first.
#![tactic(auto)]

ghost use Rattle.std.specs.Prelude.{◌≡◌, not, ◌&&◌, [], length};
ghost use Rattle.definition.specs.Kind.{UNIT};
ghost use Rattle.definition.specs.Sheet.{is};
ghost use Rattle.start_units.specs.Starting.{marked, Marks};
ghost use Rattle.order_units.specs.Ordered.{Ordered};
ghost use Rattle.order_units.specs.Settled.{Fitting, Left, Listed, Settled};

pub use answer::Answer;
use answer::{refuse, refuse_at};
use ast::kind::Kind;
use ast::question::{Question, Refusal};
use first_four::first_four;
use import_circle::lowest_circling;
use lexer::SrcPos;
use start_units::start_units;
use words::{clear, entry_at, is_kind};

// Is row `u` a unit without a mark?
fn is_left(sheet: &[u32], u: u32, marks: &[u32]) -> bool
    ensures { result ≡ (is sheet.now UNIT u && not (marked marks.now u)) }
{
    is_kind(sheet, u, Kind::Unit) && entry_at(marks, u) == 0
}

// Has some unit no mark?
fn some_left(sheet: &[u32], marks: &[u32]) -> bool
    requires { Fitting sheet.now }
    ensures { Left sheet.now marks.now result }
{
    for u in 0..(sheet.len() / 8) as u32 {
        if is_left(sheet, u, marks) {
            return true;
        }
    }
    false
}

// Answers with the `n` units that stand first in the list. Question 22: do they fit?
fn accept_list(n: usize, list: &mut [u32]) -> Answer
    ensures { Listed n list.old result list.new }
{
    if list.len() < n {
        return refuse(Question::Room, list);
    }
    Answer {
        number: 0,
        pos: SrcPos(0),
        name: 0,
        rows: n,
        globals: 0,
    }
}

// Questions 29 and 22, with a table of marks: starts all units that ever get ready. If one is left, some unit is on a circle.
fn order_in(sheet: &[u32], marks: &mut [u32], list: &mut [u32]) -> Answer
    requires { Fitting sheet.now × Marks sheet.now marks.old [] }
    ensures { Settled sheet.now (length list.old) result list.new }
{
    clear(list);
    let started = start_units(sheet, marks, list);
    if some_left(sheet, marks) {
        let u = lowest_circling(sheet, started as u32, marks).unwrap();
        let no = Refusal {
            question: Question::NoCircle,
            at: u,
            name: 0,
        };
        return refuse_at(sheet, no, list);
    }
    accept_list(started, list)
}

// The same, with its own table.
fn order_fitting(sheet: &[u32], list: &mut [u32]) -> Answer
    requires { Fitting sheet.now }
    ensures { Settled sheet.now (length list.old) result list.new }
{
    let mut marks = [0u32; 2048];
    order_in(sheet, &mut marks, list)
}

// Writes the order of a sheet's units into the lent list, a word for each unit: its row. Returns what is refused, 1 to 4, 29 or 22, and then the list is
// zero, as it is past the order; `rows` of the answer is the number of units.
pub fn order_units(sheet: &[u32], names: &[u8], list: &mut [u32]) -> Answer
    ensures { Ordered sheet.now names.now (length list.old) result list.new }
{
    match first_four(sheet, names) {
        Ok(()) => order_fitting(sheet, list),
        Err(no) => refuse(no, list),
    }
}
