// All answer rows, in rising sheet row.
#![tactic(auto)]

ghost use Rattle.std.specs.Prelude.{◌≡◌, ◌+◌, ◌<◌, [], ◌∷◌, eqb, replicate};
ghost use Rattle.definition.specs.Sheet.{rows};
ghost use Rattle.after.specs.Rows.{rows_in, answers_in};
ghost use Rattle.machine.specs.Reads.{PastFour, StoreReads, row_words, answer_row, identifier_answer};
ghost use Rattle.machine.specs.Machine.{cell};
ghost use Rattle.definition.specs.Basics.{when◌then◌else◌};
ghost use Rattle.sink.specs.Sink.{sink, emit as emitted, emit_all};
ghost use Rattle.sink.specs.Written.{written};
ghost use Rattle.class_rows.specs.Places.{Placed};
ghost use Rattle.answer_rows.specs.Ready.{FewFields, RowsReady, Scratch};
ghost use Rattle.class_names.specs.Read.{outside_in, store_in};

use ast::FunId;
use ast::code::Code;
use ast::kind::Kind;
use class_names::marks::mark_parents;
use class_names::tables::Tables;
use class_rows::emit_class;
use fun_rows::literals::{Literals, link_literals};
use fun_rows::{emit_function, emit_literal};
use sink::{AnswerRow, Rows};
use store::nodes::Store;
use store::result;
use words::{kind_at, word};

// The row of a let, host constant, instanceof or member, as the results have it.
#[tactic(auto, unfolding(machine::specs::Reads::row_words))]
fn emit_row(out: &mut Rows<'_>, results: &[u32], row: u32)
    ensures step { written out.new ≡ emitted (answer_row row (row_words results.now row)) (written out.old) }
    ensures same { out.new.words.ghost_name ≡ out.old.words.ghost_name }
{
    out.push_words([
        row,
        word(results, row, result::CODE),
        word(results, row, result::ONE),
        word(results, row, result::TWO),
        word(results, row, result::THREE),
        0,
        0,
        0,
    ]);
}

// The row of an identifier. Of a captured one the results have the distance where its second value would be.
#[tactic(auto, using(crate::proofs::RowLaws::use_plain, crate::proofs::RowLaws::use_captured))]
fn emit_use(out: &mut Rows<'_>, results: &[u32], row: u32)
    ensures step { written out.new ≡ emitted (identifier_answer row (row_words results.now row)) (written out.old) }
    ensures same { out.new.words.ghost_name ≡ out.old.words.ghost_name }
{
    if word(results, row, result::CODE) != Code::Captured as u32 {
        emit_row(out, results, row);
        return;
    }
    out.push(AnswerRow {
        row: row,
        code: Code::Captured,
        one: word(results, row, result::ONE),
        two: 0,
        three: word(results, row, result::THREE),
        four: word(results, row, result::DISTANCE),
    });
}

// An identifier has a row unless it is the base of a method called on a class.
#[tactic(auto, using(sink::proofs::SinkLaws::emit_none, sink::proofs::SinkLaws::emit_one))]
fn emit_shown(out: &mut Rows<'_>, results: &[u32], row: u32)
    ensures step { written out.new
        ≡ emit_all (when eqb (cell results.now row 4) 0 then identifier_answer row (row_words results.now row) ∷ [] else [])
        (written out.old) }
    ensures same { out.new.words.ghost_name ≡ out.old.words.ghost_name }
{
    if word(results, row, result::HIDDEN) != 0 {
        return;
    }
    emit_use(out, results, row);
}

// A member has a row if it is the callee of such a call.
#[tactic(auto, using(sink::proofs::SinkLaws::emit_none, sink::proofs::SinkLaws::emit_one))]
fn emit_member(out: &mut Rows<'_>, results: &[u32], row: u32)
    ensures step { written out.new
        ≡ emit_all (when eqb (cell results.now row 0) 0 then [] else answer_row row (row_words results.now row) ∷ [])
        (written out.old) }
    ensures same { out.new.words.ghost_name ≡ out.old.words.ghost_name }
{
    if word(results, row, result::CODE) == Code::Nothing as u32 {
        return;
    }
    emit_row(out, results, row);
}

// What links the rows: the literals of each function, and the marks of the classes that have children.
#[derive(Clone, Copy)]
pub struct Links<'a> {
    pub literals: Literals<'a>,
    pub subclassed: &'a [u32],
}

// The answer rows of a sheet row, by its kind. `starts` tells where the rows of earlier classes stand.
#[tactic(auto, using(crate::proofs::RowLaws::rows_let, crate::proofs::RowLaws::rows_host, crate::proofs::RowLaws::rows_instance, crate::proofs::RowLaws::rows_identifier, crate::proofs::RowLaws::rows_member, crate::proofs::RowLaws::rows_literal, crate::proofs::RowLaws::rows_function, class_rows::proofs::PlaceLaws::placed_kept))]
fn emit_of(out: &mut Rows<'_>, tables: Tables, links: Links, starts: &mut [usize], row: u32)
    requires { (RowsReady tables links)
        × (row < rows tables.sheet.now)
        × (Placed tables starts.old out.old.words.now row out.old.count) }
    ensures step { (o : Store) → written out.new
        ≡ emit_all (rows_in (outside_in tables.entry) tables.entry.sheet.now (store_in tables.entry o) row) (written out.old) }
    ensures placed { Placed tables.entry starts.new out.new.words.now (row + 1) out.new.count }
    ensures same { out.new.words.ghost_name ≡ out.old.words.ghost_name }
{
    match kind_at(tables.sheet, row) {
        Ok(Kind::Let) => emit_row(out, tables.results, row),
        Ok(Kind::HostConstant) => emit_row(out, tables.results, row),
        Ok(Kind::Instanceof) => emit_row(out, tables.results, row),
        Ok(Kind::Identifier) => emit_shown(out, tables.results, row),
        Ok(Kind::Member) => emit_member(out, tables.results, row),
        Ok(Kind::Literal) => emit_literal(out, tables, row),
        Ok(Kind::Function) => emit_function(out, tables, links.literals, FunId(row)),
        Ok(Kind::Class) => emit_class(out, tables, links.subclassed, starts, row),
        _ => return,
    }
}

// The answer rows of all sheet rows.
fn emit_each(out: &mut Rows<'_>, tables: Tables, links: Links, starts: &mut [usize])
    requires { (RowsReady tables links)
        × (starts.old ≡ replicate 2048 0) × (out.old.count ≡ 0) }
    ensures step { (o : Store) → written out.new
        ≡ emit_all (answers_in (outside_in tables.entry) tables.entry.sheet.now (store_in tables.entry o)) (written out.old) }
    ensures same { out.new.words.ghost_name ≡ out.old.words.ghost_name }
{
    for row in 0..(tables.sheet.len() / 8) as u32 {
        emit_of(out, tables, links, starts, row);
    }
}

// The same in lent scratch space: literals are chained by function and parents marked once, and not looked for at each row.
fn emit_linked<'a>(
    out: &mut Rows<'_>,
    tables: Tables,
    first: &'a mut [u32],
    after: &'a mut [u32],
    subclassed: &'a mut [u32],
    starts: &mut [usize],
)
    requires { (PastFour (outside_in tables) tables.sheet.now)
        × (FewFields tables)
        × (Scratch tables.sheet.now first.old after.old subclassed.old) × (starts.old ≡ replicate 2048 0) × (out.old.count ≡ 0) }
    ensures step { (o : Store) → written out.new
        ≡ emit_all (answers_in (outside_in tables.entry) tables.entry.sheet.now (store_in tables.entry o))
        (written out.old) }
    ensures same { out.new.words.ghost_name ≡ out.old.words.ghost_name }
{
    link_literals(tables.sheet, tables.results, first, after);
    mark_parents(tables.sheet, tables.results, subclassed);
    let literals = Literals { first, after };
    let links = Links {
        literals,
        subclassed,
    };
    emit_each(out, tables, links, starts);
}

// The answer rows of what the walk stored, with scratch space for 2,048 rows; their number, or one more than fit.
pub fn emit_rows(tables: Tables, store: Store, out: &mut [u32]) -> usize
    requires { (PastFour (outside_in tables) tables.sheet.now)
        × (StoreReads (outside_in tables) tables.sheet.now (store_in tables store)) }
    ensures { sink result out.new
        ≡ emit_all (answers_in (outside_in tables.entry) tables.entry.sheet.now (store_in tables.entry store)) (sink 0 out.old) }
{
    let mut first = [0u32; 2048];
    let mut after = [0u32; 2048];
    let mut subclassed = [0u32; 2048];
    let mut starts = [0usize; 2048];
    let mut rows = Rows {
        words: out,
        count: 0,
    };
    emit_linked(
        &mut rows,
        tables,
        &mut first,
        &mut after,
        &mut subclassed,
        &mut starts,
    );
    rows.count
}
