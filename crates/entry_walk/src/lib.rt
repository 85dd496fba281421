// The walk of an entry at a prompt: a sheet of one unit without imports, resolved over what earlier entries left. It stops where the body of the unit
// ends, before its scopes close, so that the declarations of the unit and of its body still stand among the open entries.
#![tactic(auto)]

ghost use Rattle.std.specs.Prelude.{◌≡◌, ◌++◌, ◌≤◌, length};
ghost use Rattle.definition.specs.Basics.{head};
ghost use Rattle.definition.specs.Sheet.{child, kids_of};
ghost use Rattle.definition.specs.Outside.{Outside};
ghost use Rattle.definition.specs.Walk.{before};
ghost use Rattle.machine.specs.Machine.{run_state};
ghost use Rattle.outside.specs.Words.{over};
ghost use Rattle.walk.specs.Ended.{ended};
ghost use Rattle.walk.specs.WalkState.{after, state_of, Same};
ghost use Rattle.row_events.specs.Prepared.{Prepared, Ready};
ghost use Rattle.resolve_syms.specs.Walked.{parts_walked};
ghost use Rattle.entry_walk.specs.Laid.{OneUnit, BodyWalked};

use ast::column;
use ast::kind::Kind;
use ast::question::Refusal;
use classes::class_table;
use outermost::open_names;
use resolve_syms::cycle::resolve_parts;
use row_events::before;
use sheet::first_of;
use store::nodes::Store;
use walk::state::{Walk, Walker};
use words::word;

// The rows of an entry that open its outer scopes: its unit, the unit's function and the body of that.
#[derive(Clone, Copy)]
struct Rows {
    unit: u32,
    fun: u32,
    body: u32,
}

fn unit_rows(sheet: &[u32]) -> Rows
    ensures { (result.unit ≡ child sheet.now 0) × (result.fun ≡ head (kids_of sheet.now 6 result.unit)) × (result.body ≡ child sheet.now result.fun) }
{
    let unit = word(sheet, 0, column::CHILD);
    let fun = first_of(sheet, unit, Kind::Function).unwrap_or(0);
    Rows {
        unit,
        fun,
        body: word(sheet, fun, column::CHILD),
    }
}

// The scopes of unit, function and body opened, with what is declared there before the body's statements.
fn open_body(walk: &mut Walker<'_, '_>, rows: Rows) -> Result<(), Refusal>
    requires { length walk.old.sheet.now ≤ 16384 }
    ensures step { (O : Outside) → after walk.new result ≡ run_state O walk.old.sheet.now
        (before walk.old.sheet.now rows.unit ++ before walk.old.sheet.now rows.fun ++ before walk.old.sheet.now rows.body) (state_of walk.old) }
    ensures same { Same walk.old walk.new }
{
    before(walk, rows.unit)?;
    before(walk, rows.fun)?;
    before(walk, rows.body)
}

// The entry up to the end of its body.
fn resolve_body(walk: &mut Walker<'_, '_>, rows: Rows, left: usize) -> Result<(), Refusal>
    requires { Prepared walk.old.sheet.now walk.old.classes.now }
    ensures step { after walk.new result ≡ parts_walked (over walk.old.outside.now) left walk.old.sheet.now rows.body
        (run_state (over walk.old.outside.now) walk.old.sheet.now
        (before walk.old.sheet.now rows.unit ++ before walk.old.sheet.now rows.fun ++ before walk.old.sheet.now rows.body) (state_of walk.old)) }
    ensures same { Same walk.old walk.new }
{
    open_body(walk, rows)?;
    resolve_parts(walk, rows.body, left)
}

// An entry resolved up to the end of its body, over a table of classes, open entries, a table of results and nodes: refused with the first no of questions
// 5 to 17, or the buffers hold what the definition's answer rows say, and the open entries above those from outside what the entry declared.
pub fn resolve_entry<'s, 'b>(
    sheet: &'s [u32],
    outside: &'s [u32],
    classes: &'s mut [u32],
    entries: &'b mut [u32],
    results: &'b mut [u32],
    nodes: &'b mut [u32],
) -> Walk
    requires { (Ready (over outside.now) sheet.now classes.old entries.old results.old nodes.old) × (OneUnit sheet.now) }
    ensures { BodyWalked (over outside.now) sheet.now
        (ended result entries.new results.new nodes.new) }
{
    class_table(sheet, classes);
    let env = open_names(sheet, outside, entries);
    let mut walk = Walker {
        sheet,
        outside,
        classes,
        env,
        entries,
        store: Store { used: 0, calls: 0 },
        results,
        nodes,
    };
    let rows = unit_rows(sheet);
    let done = resolve_body(&mut walk, rows, sheet.len() / 8 - 4);
    Walk {
        env: walk.env,
        store: walk.store,
        done,
    }
}
