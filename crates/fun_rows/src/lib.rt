// The answer rows of functions and of their literals.
#![tactic(auto)]

mod escapes;
mod escaping;
pub mod literals;

ghost use Rattle.std.specs.Prelude.{◌≡◌, [], ◌∷◌, map, ◌<◌, ◌≤◌, length};
ghost use Rattle.ast.specs.Decl.{code_and_values};
ghost use Rattle.definition.specs.Sheet.{rows};
ghost use Rattle.definition.specs.Answer.{eight};
ghost use Rattle.machine.specs.Machine.{chain_to, code_of, seen_in, node_at};
ghost use Rattle.symbols.specs.OpenDecls.{means, slot_or, number_or};
ghost use Rattle.machine.specs.Reads.{answer_row, meaning_of_node};
ghost use Rattle.after.specs.Rows.{literal_rows_in, function_rows_in};
ghost use Rattle.class_names.specs.Read.{store_in};
ghost use Rattle.sink.specs.Sink.{emit as emitted, emit_all};
ghost use Rattle.sink.specs.Written.{written};
ghost use Rattle.fun_rows.specs.Literals.{LiteralChains};
ghost use Rattle.fun_rows.specs.Escaping.{slots_left};

use crate::escaping::EscapingSlots;
use crate::literals::Literals;
use ast::code::Code;
use ast::{Decl, FunId, column};
use class_names::tables::Tables;
use sink::{AnswerRow, Rows};
use store::code::{code_of, seen_in};
use store::nodes::{Store, count_nodes, node_before, node_word};
use store::{node, result};
use symbols::decl::OpenDecl;
use words::word;

// The row of sheet `row`, told as a declaration.
fn emit_decl(out: &mut Rows<'_>, row: u32, d: Decl)
    ensures step { written out.new ≡ emitted (answer_row row (code_and_values d)) (written out.old) }
    ensures same { out.new.words.ghost_name ≡ out.old.words.ghost_name }
{
    let x = d.words();
    out.push_words([row, x[0], x[1], x[2], x[3], 0, 0, 0]);
}

// The local or argument that node `i` of a capture list stands for.
fn captured_at(nodes: &[u32], i: u32) -> OpenDecl
    ensures { (means result ≡ meaning_of_node (node_at nodes.now i)) × (slot_or 0 result ≡ (node_at nodes.now i).two) × (number_or 0 result ≡ 0) }
{
    OpenDecl::Variable {
        row: node_word(nodes, i, node::KEY),
        fun: FunId(node_word(nodes, i, node::ONE)),
        slot: node_word(nodes, i, node::TWO),
    }
}

// What a function captures, by rising index: the list whose last node is node `p - 1`.
#[tactic(auto, using(crate::proofs::ListLaws::nodes_none))]
fn emit_captured(out: &mut Rows<'_>, tables: &Tables<'_>, row: u32, p: u32)
    requires { length tables.now.sheet.now ≤ 16384 }
    ensures step { written out.new
        ≡ emit_all (map (λ y. eight (row ∷ code_of tables.now.sheet.now (meaning_of_node y) y.two 0)) (chain_to tables.now.nodes.now p))
        (written out.old) }
    ensures same { out.new.words.ghost_name ≡ out.old.words.ghost_name }
{
    if p == 0 {
        return;
    }
    let i = p - 1;
    emit_captured(out, tables, row, node_before(tables.nodes, i));
    let x = code_of(tables.sheet, captured_at(tables.nodes, i));
    emit_decl(out, row, x);
}

// What a literal that stands in function `fun` hands on, in the same order. Not one routine with `emit_captured`: a closure for the row
// would have to tell both what it reads of the sheet and what of the store, which is no shorter.
#[tactic(auto, using(crate::proofs::ListLaws::nodes_none))]
fn emit_sources(out: &mut Rows<'_>, tables: &Tables<'_>, row: u32, fun: FunId, p: u32)
    requires { length tables.now.sheet.now ≤ 16384 }
    ensures step { (o : Store) → written out.new
        ≡ emit_all (map (λ y. eight
        (row ∷ seen_in tables.now.sheet.now (meaning_of_node y) y.two 0 fun.0 (store_in tables.now o)))
        (chain_to tables.now.nodes.now p)) (written out.old) }
    ensures same { out.new.words.ghost_name ≡ out.old.words.ghost_name }
{
    if p == 0 {
        return;
    }
    let i = p - 1;
    emit_sources(out, tables, row, fun, node_before(tables.nodes, i));
    let x = seen_in(
        tables.sheet,
        captured_at(tables.nodes, i),
        fun,
        tables.results,
        tables.nodes,
    );
    emit_decl(out, row, x);
}

// The rows of literal `row`: one for each source.
pub fn emit_literal(out: &mut Rows<'_>, tables: Tables, row: u32)
    requires { length tables.sheet.now ≤ 16384 }
    ensures step { (o : Store) → written out.new
        ≡ emit_all (map (λ vs. eight (row ∷ vs))
        (literal_rows_in tables.entry.sheet.now (store_in tables.entry o) row)) (written out.old) }
    ensures same { out.new.words.ghost_name ≡ out.old.words.ghost_name }
{
    let fun = FunId(word(tables.results, row, result::ONE));
    let last = word(
        tables.results,
        word(tables.sheet, row, column::CHILD),
        result::CAPTURES,
    );
    emit_sources(out, &tables, row, fun, last);
}

// A row for each escaping slot of function `f`.
#[tactic(auto, using(crate::proofs::EscapeLaws::rows_end))]
fn emit_escapes(out: &mut Rows<'_>, f: FunId, slots: EscapingSlots)
    ensures step { written out.new
        ≡ emit_all (map (λ j. eight (f.0 ∷ 5 ∷ j ∷ f.0 ∷ 1 ∷ [])) (slots_left slots.entry))
        (written out.old) }
    ensures same { out.new.words.ghost_name ≡ out.old.words.ghost_name }
{
    for slot in slots {
        let x = Decl::Local {
            idx: slot,
            src_fun: f,
            mutable: true,
        };
        emit_decl(out, f.0, x);
    }
}

// The rows of function `f`: its counts, what it captures, its escaping slots.
pub fn emit_function(out: &mut Rows<'_>, tables: Tables, literals: Literals, f: FunId)
    requires { (length tables.sheet.now ≤ 16384) × (f.0 < rows tables.sheet.now)
        × (LiteralChains tables.sheet.now tables.results.now literals.first.now literals.after.now) }
    ensures step { (o : Store) → written out.new
        ≡ emit_all (map (λ vs. eight (f.0 ∷ vs))
        (function_rows_in tables.entry.sheet.now (store_in tables.entry o) f.0))
        (written out.old) }
    ensures same { out.new.words.ghost_name ≡ out.old.words.ghost_name }
{
    let escaping = EscapingSlots::of(tables, literals, f);
    let last = word(tables.results, f.0, result::CAPTURES);
    out.push(AnswerRow {
        row: f.0,
        code: Code::FunctionCounts,
        one: word(tables.results, f.0, result::LOCALS),
        two: count_nodes(tables.nodes, last),
        three: escaping.number(),
        four: 0,
    });
    emit_captured(out, &tables, f.0, last);
    emit_escapes(out, f, escaping);
}
