// The slots of a function that escape, one by one.
ghost use Rattle.std.specs.Prelude.{◌<◌};
ghost use Rattle.definition.specs.Sheet.{rows};
ghost use Rattle.fun_rows.specs.Literals.{LiteralChains};

use crate::escapes::hands_on;
use crate::literals::Literals;
use ast::FunId;
use class_names::tables::Tables;
use store::nodes::Store;
use store::result;
use words::{entry_at, word};

// The slots of a function that escape, in rising order: those from slot `next` on and below `end`.
#[derive(Clone, Copy)]
pub struct EscapingSlots<'a> {
    pub tables: Tables<'a>,
    pub literals: Literals<'a>,
    pub function: FunId,
    pub next: u32,
    pub end: u32,
    ghost bounded: { end < 4294967296 },
    ghost within: { function.0 < rows tables.sheet.now },
    ghost chained: { LiteralChains tables.sheet.now tables.results.now literals.first.now literals.after.now },
}

impl<'a> EscapingSlots<'a> {
    ghost use Rattle.std.specs.Prelude.{◌≡◌, length};
    ghost use Rattle.machine.specs.Reads.{escaping_slots};
    ghost use Rattle.class_names.specs.Read.{store_in};
    ghost use Rattle.fun_rows.specs.Escaping.{slots_left};

    // Those of function `f`. None is asked where no literal stands in it.
    pub fn of(tables: Tables<'a>, literals: Literals<'a>, f: FunId) -> EscapingSlots<'a>
        requires { (f.0 < rows tables.sheet.now)
            × (LiteralChains tables.sheet.now tables.results.now literals.first.now literals.after.now) }
        ensures { (o : Store) → slots_left result
            ≡ escaping_slots tables.entry.sheet.now (store_in tables.entry o) f.0 }
    {
        let end = if entry_at(literals.first, f.0) == 0 {
            0
        } else {
            word(tables.results, f.0, result::LOCALS)
        };
        EscapingSlots {
            tables,
            literals,
            function: f,
            next: 0,
            end,
        }
    }

    // How many there are.
    pub fn number(self) -> u32
        ensures { result ≡ length (slots_left self.entry) }
    {
        self.count() as u32
    }
}

impl<'a> Iterator for EscapingSlots<'a> {
    ghost use Rattle.std.specs.Iterator.{YieldsFirst, item_count};
    ghost use Rattle.fun_rows.specs.Escaping.{slots_left};

    type Item = u32;

    ghost next_gives = { YieldsFirst slots_left };

    ghost remaining = { item_count slots_left };

    fn next(&mut self) -> Option<u32> {
        for slot in self.next..self.end {
            self.next = slot + 1;
            if hands_on(self.tables, self.literals, self.function, slot) {
                return Some(slot);
            }
        }
        None
    }
}
