// Rows that tell the names of a class: code 23 a field by its slot, code 24 a method by its function.
ghost use Rattle.std.specs.Prelude.{◌≡◌, List, [], ◌∷◌, map, ℕ, min, length};
ghost use Rattle.class_names.specs.Read.{outside_in, store_in};
ghost use Rattle.definition.specs.Sheet.{a, kids_of};
ghost use Rattle.ast.specs.Kind.{kind_number};
ghost use Rattle.outside.specs.Left.{names_left};
ghost use Rattle.machine.specs.Machine.{chain_to, one_more as next_slot};
ghost use Rattle.sink.specs.Sink.{emit as emitted};
ghost use Rattle.sink.specs.Written.{words_of, written};
ghost use Rattle.store.specs.Stored.{store_of};
ghost use Rattle.store.specs.declared.nodes.Store.{Store};
ghost use Rattle.class_names.specs.Names.{own_in, names_in};
ghost use Rattle.name_rows.specs.Put.{filled, name_row, put, put_all, put_new};

use ast::code::Code;
use ast::kind::Kind;
use ast::{ClassId, FIRST_CLASS, column};
use class_names::held::is_inherited;
use class_names::tables::Tables;
use inherit::{find_method, parent_of};
use outside::recorded_names::RecordedNames;
use outside::records::recorded_names;
use sheet::{is_class_row, kids_of};
use sink::{AnswerRow, Rows};
use store::nodes::{node_before, node_word};
use store::{node, result};
use words::{one_more, word};

// Whose names are written, and which: the kind of their rows, the class's row, the class.
#[derive(Clone, Copy)]
pub struct Wanted {
    pub kind: Kind,
    pub row: u32,
    pub class: ClassId,
}

// The parent whose names are passed over, and how far they are climbed for.
#[derive(Clone, Copy)]
pub struct Passed {
    pub class: ClassId,
    pub left: usize,
}

// The row that tells name `m` at slot `i`.
#[tactic(auto, using(ast::proofs::KindLaws::same_kind), unfolding(crate::specs::Put::name_row))]
fn name_row(tables: &Tables<'_>, wanted: Wanted, m: u32, i: u32) -> AnswerRow
    ensures { (o : Store) (q : List ℕ) → words_of result
        ≡ name_row (outside_in tables.now) tables.now.sheet.now (store_of o tables.now.results.now q) wanted m i }
{
    if wanted.kind == Kind::Field {
        return AnswerRow {
            row: wanted.row,
            code: Code::Field,
            one: i,
            two: m,
            three: 0,
            four: 0,
        };
    }
    let fun = find_method(
        tables.sheet,
        tables.outside,
        tables.results,
        wanted.class,
        m,
    )
    .fun;
    AnswerRow {
        row: wanted.row,
        code: Code::Method,
        one: m,
        two: fun.0,
        three: 0,
        four: 0,
    }
}

// One row more, that tells the name at slot `slot`; the next slot.
pub fn put_row(out: &mut Rows<'_>, x: AnswerRow, slot: u32) -> u32
    ensures step { filled result out.new ≡ record { done = emitted (words_of x) (written out.old); slot = next_slot slot } }
    ensures same { out.new.words.ghost_name ≡ out.old.words.ghost_name }
{
    out.push(x);
    one_more(slot)
}

// One name more, unless it is inherited. A call of its own: what it needs of the stack is then no part of each level of `put_stored`.
#[tactic(auto, using(crate::proofs::PutLaws::new_old, crate::proofs::PutLaws::new_put, crate::proofs::PutLaws::put_one))]
#[inline(never)]
fn put_new(
    out: &mut Rows<'_>,
    tables: &Tables<'_>,
    wanted: Wanted,
    p: Passed,
    m: u32,
    slot: u32,
) -> u32
    ensures step { (o : Store) → filled result out.new
        ≡ put_new (outside_in tables.now) tables.now.sheet.now (store_in tables.now o) wanted p
        (m ∷ []) (filled slot out.old) }
    ensures same { out.new.words.ghost_name ≡ out.old.words.ghost_name }
{
    if is_inherited(*tables, wanted.kind, p.left, p.class, m) {
        return slot;
    }
    put_row(out, name_row(tables, wanted, m, slot), slot)
}

// Names in the words from outside, in order.
#[tactic(auto, using(crate::proofs::PutLaws::new_rest, crate::proofs::PutLaws::new_end))]
fn put_recorded(
    out: &mut Rows<'_>,
    tables: &Tables<'_>,
    wanted: Wanted,
    p: Passed,
    names: RecordedNames,
    slot: u32,
) -> u32
    ensures step { (o : Store) → filled result out.new
        ≡ put_new (outside_in tables.now) tables.now.sheet.now (store_in tables.now o) wanted p
        (names_left names.entry) (filled slot out.old) }
    ensures same { out.new.words.ghost_name ≡ out.old.words.ghost_name }
{
    let mut next = slot;
    for name in names {
        next = put_new(out, tables, wanted, p, name, next);
    }
    next
}

// The names of the children of row `r`, in order.
#[tactic(auto, using(crate::proofs::PutLaws::new_rest, crate::proofs::PutLaws::new_end))]
fn put_listed(
    out: &mut Rows<'_>,
    tables: &Tables<'_>,
    wanted: Wanted,
    p: Passed,
    r: u32,
    slot: u32,
) -> u32
    ensures step { (o : Store) → filled result out.new
        ≡ put_new (outside_in tables.now) tables.now.sheet.now (store_in tables.now o) wanted p
        (map (a tables.now.sheet.now) (kids_of tables.now.sheet.now (kind_number wanted.kind) r)) (filled slot out.old) }
    ensures same { out.new.words.ghost_name ≡ out.old.words.ghost_name }
{
    let mut next = slot;
    for row in kids_of(tables.sheet, r, wanted.kind) {
        let name = word(tables.sheet, row, column::A);
        next = put_new(out, tables, wanted, p, name, next);
    }
    next
}

// The keys of the list whose last node is node `last - 1`, in order.
#[tactic(auto, using(crate::proofs::PutLaws::stored_none, crate::proofs::PutLaws::stored_last))]
fn put_stored(
    out: &mut Rows<'_>,
    tables: &Tables<'_>,
    wanted: Wanted,
    p: Passed,
    last: u32,
    slot: u32,
) -> u32
    ensures step { (o : Store) → filled result out.new
        ≡ put_new (outside_in tables.now) tables.now.sheet.now (store_in tables.now o) wanted p
        (map (λ y. y.key) (chain_to tables.now.nodes.now last)) (filled slot out.old) }
    ensures same { out.new.words.ghost_name ≡ out.old.words.ghost_name }
{
    if last == 0 {
        return slot;
    }
    let i = last - 1;
    let before = node_before(tables.nodes, i);
    let next = put_stored(out, tables, wanted, p, before, slot);
    let name = node_word(tables.nodes, i, node::KEY);
    put_new(out, tables, wanted, p, name, next)
}

// The own names of a class.
#[tactic(auto, using(ast::proofs::KindLaws::same_kind, crate::proofs::PutLaws::own_stored, crate::proofs::PutLaws::own_listed, crate::proofs::PutLaws::own_recorded))]
pub fn put_own(
    out: &mut Rows<'_>,
    tables: &Tables<'_>,
    wanted: Wanted,
    p: Passed,
    c: ClassId,
    slot: u32,
) -> u32
    ensures step { (o : Store) → filled result out.new
        ≡ put_new (outside_in tables.now) tables.now.sheet.now (store_in tables.now o) wanted p
        (own_in (outside_in tables.now) tables.now.sheet.now (store_in tables.now o) (kind_number wanted.kind)
        c.0) (filled slot out.old) }
    ensures same { out.new.words.ghost_name ≡ out.old.words.ghost_name }
{
    if is_class_row(tables.sheet, c) {
        let r = c.0 - FIRST_CLASS;
        let next = put_listed(out, tables, wanted, p, r, slot);
        if wanted.kind == Kind::Field {
            let last = word(tables.results, r, result::FIELDS);
            return put_stored(out, tables, wanted, p, last, next);
        }
        return next;
    }
    let names = recorded_names(tables.outside, wanted.kind, c);
    put_recorded(out, tables, wanted, p, names, slot)
}

// The names of class `c`: the inherited, then the own ones that are new. It climbs at most `n` classes.
#[tactic(auto, using(crate::proofs::PutLaws::names_zero, crate::proofs::PutLaws::names_first, crate::proofs::PutLaws::names_after))]
pub fn put_names(
    out: &mut Rows<'_>,
    tables: &Tables<'_>,
    wanted: Wanted,
    n: usize,
    c: ClassId,
    slot: u32,
) -> u32
    ensures step { (o : Store) → filled result out.new
        ≡ put_all (name_row (outside_in tables.now) tables.now.sheet.now (store_in tables.now o) wanted)
        (names_in (outside_in tables.now) tables.now.sheet.now (store_in tables.now o) (kind_number wanted.kind) n
        c.0) (filled slot out.old) }
    ensures same { out.new.words.ghost_name ≡ out.old.words.ghost_name }
{
    if n == 0 {
        return slot;
    }
    let up = parent_of(tables.sheet, tables.results, c);
    let p = Passed {
        class: up,
        left: n - 1,
    };
    if up.0 == 0 {
        return put_own(out, tables, wanted, p, c, slot);
    }
    let next = put_names(out, tables, wanted, n - 1, up, slot);
    put_own(out, tables, wanted, p, c, next)
}

// How many names class `c` has, or the largest number of a word. Nothing is written: not one row fits.
pub fn count_names(tables: Tables, wanted: Wanted, n: usize, c: ClassId) -> u32
    ensures { (o : Store) → result ≡ min
        (length (names_in (outside_in tables.entry) tables.entry.sheet.now (store_in tables.entry o)
        (kind_number wanted.kind) n c.0)) 4294967295 }
{
    let mut none = [0u32; 1];
    let mut out = Rows {
        words: &mut none,
        count: 0,
    };
    put_names(&mut out, &tables, wanted, n, c, 0)
}
