// The answer rows of a class, written into the lent answer words.
#![tactic(auto)]

ghost use Rattle.std.specs.Prelude.{◌≡◌, ◌∷◌, map, not, ◌+◌, ◌<◌, eqb, length, get_or};
ghost use Rattle.class_names.specs.Read.{outside_in, store_in};
ghost use Rattle.definition.specs.Basics.{bit};
ghost use Rattle.definition.specs.Answer.{eight};
ghost use Rattle.after.specs.Rows.{class_rows_named};
ghost use Rattle.sink.specs.Sink.{emit_all};
ghost use Rattle.sink.specs.Written.{words_of, written};
ghost use Rattle.store.specs.declared.nodes.Store.{Store};
ghost use Rattle.class_names.specs.Names.{ClassReady, head_words};
ghost use Rattle.name_rows.specs.Put.{Wants};
ghost use Rattle.ast.specs.Kind.{kind_number};
ghost use Rattle.class_rows.specs.Places.{Placed, Shown, Counted};

mod line;
mod places;

use crate::line::{count_line, put_line};
use crate::places::{Inherited, above_of, line_ends, place_of};
use ast::code::Code;
use ast::kind::Kind;
use ast::{ClassId, FIRST_CLASS};
use class_names::tables::Tables;
use inherit::parent_of;
use name_rows::put::Wanted;
use sink::{AnswerRow, Rows};

// The slot of the first field.
const FIRST_SLOT: u32 = 0;

// 1 if `row` is marked, else 0.
fn mark_bit(subclassed: &[u32], row: u32) -> u32
    requires { row < length subclassed.now }
    ensures { result ≡ bit (not (eqb (get_or subclassed.now row 0) 0)) }
{
    (subclassed[row as usize] != 0) as u32
}

// What is wanted of the class of `row`: the names of the rows of a kind.
fn wanted(row: u32, kind: Kind) -> Wanted
    requires { row < 2048 }
    ensures { Wants row (kind_number kind) result }
{
    Wanted {
        kind: kind,
        row: row,
        class: ClassId(FIRST_CLASS + row),
    }
}

// The first row of a class: its parent, whether it has children, and the numbers of its fields and methods.
#[tactic(auto, using(crate::proofs::AboveLaws::counted_wanted))]
fn class_head(tables: Tables, subclassed: &[u32], above: Inherited, row: u32) -> AnswerRow
    requires { (ClassReady tables subclassed.now row)
        × (Counted tables 10 (256 + row) above.fields)
        × (Counted tables 6 (256 + row) above.methods) }
    ensures { (o : Store) → words_of result
        ≡ eight (row ∷ head_words (outside_in tables.entry) tables.entry.sheet.now
        (store_in tables.entry o) row) }
{
    let parent = parent_of(tables.sheet, tables.results, ClassId(FIRST_CLASS + row)).0;
    let children = mark_bit(subclassed, row);
    let field_count = count_line(tables, wanted(row, Kind::Field), above.fields);
    let method_count = count_line(tables, wanted(row, Kind::Function), above.methods);
    AnswerRow {
        row: row,
        code: Code::ClassCounts,
        one: parent,
        two: children,
        three: field_count,
        four: method_count,
    }
}

// The rows of the class of `row`: its counts, its fields by slot, its methods.
fn write_class(out: &mut Rows<'_>, tables: Tables, subclassed: &[u32], above: Inherited, row: u32)
    requires { (ClassReady tables subclassed.now row)
        × (Shown tables 10 (256 + row) out.old.words.now out.old.count above.fields)
        × (Shown tables 6 (256 + row) out.old.words.now out.old.count above.methods) }
    ensures step { (o : Store) → written out.new
        ≡ emit_all (map (λ vs. eight (row ∷ vs))
        (class_rows_named (outside_in tables.entry) tables.entry.sheet.now (store_in tables.entry o) row))
        (written out.old) }
    ensures same { out.new.words.ghost_name ≡ out.old.words.ghost_name }
{
    let head = class_head(tables, subclassed, above, row);
    out.push(head);
    put_line(
        out,
        tables,
        wanted(row, Kind::Field),
        above.fields,
        FIRST_SLOT,
    );
    put_line(
        out,
        tables,
        wanted(row, Kind::Function),
        above.methods,
        FIRST_SLOT,
    );
}

// The same, with what the class inherits copied from the rows of its parent, if they have a place. Then the class has a place too. Where
// no row fits, nothing is looked for.
pub fn emit_class(
    out: &mut Rows<'_>,
    tables: Tables,
    subclassed: &[u32],
    starts: &mut [usize],
    row: u32,
)
    requires { (ClassReady tables subclassed.now row)
        × (Placed tables starts.old out.old.words.now row out.old.count) }
    ensures step { (o : Store) → written out.new
        ≡ emit_all (map (λ vs. eight (row ∷ vs))
        (class_rows_named (outside_in tables.entry) tables.entry.sheet.now (store_in tables.entry o) row))
        (written out.old) }
    ensures placed { Placed tables.entry starts.new out.new.words.now (row + 1) out.new.count }
    ensures same { out.new.words.ghost_name ≡ out.old.words.ghost_name }
{
    let room = out.room();
    let start = out.count;
    if room <= start {
        out.count = room + 1;
        return;
    }
    let parent = parent_of(tables.sheet, tables.results, ClassId(FIRST_CLASS + row));
    let at = place_of(starts, parent);
    let above = Inherited {
        fields: above_of(out, at, Kind::Field),
        methods: above_of(out, at, Kind::Function),
    };
    write_class(out, tables, subclassed, above, row);
    if room < out.count {
        return;
    }
    if !line_ends(tables.sheet, at, parent, row) {
        return;
    }
    starts[row as usize] = start + 1;
}
