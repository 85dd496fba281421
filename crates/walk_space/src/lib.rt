// The space that the walk of a sheet takes, by the kinds of its rows.
#![tactic(auto)]

ghost use Rattle.std.specs.Prelude.{◌≡◌, true, ◌≤◌, length};
ghost use Rattle.definition.specs.Sheet.{rows};
ghost use Rattle.machine.specs.Space.{nodes_of, nodes_for};

use ast::kind::Kind;
use size::{SMALL_NODES, SMALL_SHEET};
use words::is_kind;

pub mod size;

// No more functions than that lie around an identifier: depths are at most 64.
const MOST_FUNCTIONS: u32 = 21;

// How many nodes a row may take.
fn nodes_of(sheet: &[u32], row: u32) -> u32
    ensures { (result ≡ nodes_of sheet.now row) × (result ≤ 21) }
{
    if is_kind(sheet, row, Kind::Identifier) {
        MOST_FUNCTIONS
    } else if is_kind(sheet, row, Kind::Call) || is_kind(sheet, row, Kind::Assign) {
        1
    } else {
        0
    }
}

// How many nodes the walk may take.
pub fn nodes_for(sheet: &[u32]) -> u32
    requires { rows sheet.now ≤ 2048 }
    ensures { result ≡ nodes_for sheet.now }
{
    let mut need = 0;
    for row in 0..(sheet.len() / 8) as u32 {
        need += nodes_of(sheet, row);
    }
    need
}

// Does a sheet do with the smaller space?
pub fn is_small(sheet: &[u32]) -> bool
    ensures { result ≡ true → (length sheet.now ≤ 2560) × (nodes_for sheet.now ≤ 3360) }
{
    sheet.len() <= SMALL_SHEET && nodes_for(sheet) <= SMALL_NODES
}
