// The walk over a sheet past the first four questions.
#![tactic(auto)]

ghost use Rattle.machine.specs.Reads.{Walked};
ghost use Rattle.outside.specs.Words.{over};
ghost use Rattle.walk.specs.Ended.{ended};
ghost use Rattle.row_events.specs.Prepared.{Ready};

pub mod cycle;

use crate::cycle::resolve_parts;
use classes::class_table;
use outermost::open_names;
use store::nodes::Store;
use walk::state::{Walk, Walker};

// The units of a sheet resolved, over a table of classes, open entries, a table of results and nodes: refused with the first no of
// questions 5 to 17, or the buffers hold what the definition's answer rows say.
pub fn resolve_units<'s, 'b>(
    sheet: &'s [u32],
    outside: &'s [u32],
    classes: &'s mut [u32],
    entries: &'b mut [u32],
    results: &'b mut [u32],
    nodes: &'b mut [u32],
) -> Walk
    requires { Ready (over outside.now) sheet.now classes.old entries.old results.old nodes.old }
    ensures { Walked (over outside.now) sheet.now
        (ended result entries.new results.new nodes.new) }
{
    class_table(sheet, classes);
    let env = open_names(sheet, outside, entries);
    let mut walk = Walker {
        sheet,
        outside,
        classes,
        env,
        entries,
        store: Store { used: 0, calls: 0 },
        results,
        nodes,
    };
    let done = resolve_parts(&mut walk, 0, sheet.len() / 8 - 1);
    Walk {
        env: walk.env,
        store: walk.store,
        done,
    }
}
