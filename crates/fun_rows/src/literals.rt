// The literals that stand in each function, chained in rising row. An entry of 0 ends a chain.
ghost use Rattle.std.specs.Prelude.{◌≡◌, ◌≤◌, length, get_or};
ghost use Rattle.definition.specs.Sheet.{rows, kind};
ghost use Rattle.classes.specs.Table.{Clear};
ghost use Rattle.fun_rows.specs.Literals.{is_reached, literal_chain, LiteralChains};
ghost use Rattle.fun_rows.specs.Escaping.{literals_left};

use ast::FunId;
use ast::code::Code;
use ast::kind::Kind;
use store::result;
use words::{entry_at, is_kind, put_entry, word};

// The chains: entry `f` of `first` is the first literal that stands in function `f`, and entry `l` of `after` the one after literal `l`.
#[derive(Clone, Copy)]
pub struct Literals<'a> {
    pub first: &'a [u32],
    pub after: &'a [u32],
}

impl<'a> Literals<'a> {
    // The literals that stand in function `f`, at most `limit` of them.
    pub fn standing_in(self, f: FunId, limit: usize) -> LiteralRows<'a>
        ensures { literals_left result ≡ literal_chain limit self.entry.after.now (get_or self.entry.first.now f.0 0) }
    {
        LiteralRows {
            after: self.after,
            row: entry_at(self.first, f.0),
            left: limit,
        }
    }
}

// The literals of a chain from literal `row` on, at most `left` of them. Row 0 ends it.
#[derive(Clone, Copy)]
pub struct LiteralRows<'a> {
    pub after: &'a [u32],
    pub row: u32,
    pub left: usize,
}

impl<'a> Iterator for LiteralRows<'a> {
    ghost use Rattle.std.specs.Iterator.{YieldsFirst, item_count};

    type Item = u32;

    ghost next_gives = { YieldsFirst literals_left };

    ghost remaining = { item_count literals_left };

    #[tactic(auto, using(crate::proofs::EscapeLaws::chain_end, crate::proofs::EscapeLaws::chain_none, crate::proofs::EscapeLaws::chain_one))]
    fn next(&mut self) -> Option<u32> {
        if self.left == 0 || self.row == 0 {
            return None;
        }
        let row = self.row;
        self.row = entry_at(self.after, row);
        self.left -= 1;
        Some(row)
    }
}

// Is row `l` a literal that the walk reached?
fn is_reached(sheet: &[u32], results: &[u32], l: u32) -> bool
    ensures { result ≡ is_reached sheet.now results.now l }
{
    is_kind(sheet, l, Kind::Literal) && word(results, l, result::CODE) == Code::Fun as u32
}

// Chains the literals, from the last row down. Row 0 is the header and no literal.
pub fn link_literals(sheet: &[u32], results: &[u32], first: &mut [u32], after: &mut [u32])
    requires { (length sheet.now ≤ 16384) × (kind sheet.now 0 ≡ 0) × (Clear first.old)
        × (rows sheet.now ≤ length first.old) × (rows sheet.now ≤ length after.old) }
    ensures { LiteralChains sheet.now results.now first.new after.new }
{
    for l in (1..(sheet.len() / 8) as u32).rev() {
        if is_reached(sheet, results, l) {
            let fun = word(results, l, result::ONE);
            put_entry(after, l, entry_at(first, fun));
            put_entry(first, fun, l);
        }
    }
}
