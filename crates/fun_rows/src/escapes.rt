// The locals of a function that escape: mutable, and captured by the function of a literal that stands in it.
ghost use Rattle.std.specs.Prelude.{◌≡◌, ◌&&◌, ◌<◌, eqb};
ghost use Rattle.definition.specs.Sheet.{rows};
ghost use Rattle.definition.specs.Slots.{is_mutable};
ghost use Rattle.machine.specs.Machine.{chain_to, node_at};
ghost use Rattle.machine.specs.Reads.{meaning_of_node, hands_on};
ghost use Rattle.fun_rows.specs.Literals.{LiteralChains, escapes};

use crate::captured_at;
use crate::literals::Literals;
use ast::{FunId, column};
use class_names::tables::Tables;
use store::back::nodes_back;
use store::result;
use symbols::decl::{is_mutable, owner_of, slot_of};
use words::word;

// Is node `i` of a capture list the mutable local of function `f` in slot `j`?
fn is_slot(sheet: &[u32], nodes: &[u32], i: u32, f: FunId, j: u32) -> bool
    ensures { result ≡ (is_mutable sheet.now (meaning_of_node (node_at nodes.now i)) && eqb
        (node_at nodes.now i).one f.0 && eqb (node_at nodes.now i).two j) }
{
    let d = captured_at(nodes, i);
    is_mutable(sheet, d) && owner_of(d).0 == f.0 && slot_of(d) == j
}

// Is that local in the list whose last node is node `p - 1`?
fn captures_slot(sheet: &[u32], nodes: &[u32], p: u32, f: FunId, j: u32) -> bool
    ensures { result ≡ hands_on sheet.now f.0 j (chain_to nodes.now p) }
{
    nodes_back(nodes, p).any(|i| is_slot(sheet, nodes, i, f, j))
}

// Does slot `j` of function `f` escape? Asks the function of each literal that stands in `f`.
pub fn hands_on(tables: Tables, literals: Literals, f: FunId, j: u32) -> bool
    requires { (f.0 < rows tables.sheet.now)
        × (LiteralChains tables.sheet.now tables.results.now literals.first.now literals.after.now) }
    ensures { result ≡ escapes tables.entry.sheet.now tables.entry.results.now tables.entry.nodes.now f.0 j }
{
    literals.standing_in(f, tables.sheet.len() / 8).any(|l| {
        let fun = word(tables.sheet, l, column::CHILD);
        let last = word(tables.results, fun, result::CAPTURES);
        captures_slot(tables.sheet, tables.nodes, last, f, j)
    })
}
