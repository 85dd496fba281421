// Rows that tell names, copied from the rows of a parent.
ghost use Rattle.std.specs.Prelude.{◌≡◌, ◌+◌, ◌/◌, ◌<◌, ◌≤◌, eqb, length};
ghost use Rattle.class_names.specs.Read.{outside_in};
ghost use Rattle.definition.specs.Basics.{when◌then◌else◌, from};
ghost use Rattle.definition.specs.Classes.{method_named, own_methods};
ghost use Rattle.sink.specs.Written.{words_of};
ghost use Rattle.name_rows.specs.Put.{filled, copied_row, put, put_all};

use crate::put::{Wanted, put_row};
use ast::code::Code;
use ast::kind::Kind;
use ast::{ClassId, FunId};
use class_names::tables::Tables;
use outside::records::own_method;
use sink::{AnswerRow, Rows};

// The own method of name `m` of a class, else function `f`.
fn own_or(tables: Tables, c: ClassId, m: u32, f: FunId) -> FunId
    ensures { result.0 ≡
        (when eqb (method_named m (own_methods (outside_in tables.entry) tables.entry.sheet.now c.0)) 0 then f.0 else method_named m
        (own_methods (outside_in tables.entry) tables.entry.sheet.now c.0)) }
{
    let own = own_method(tables.sheet, tables.outside, c, m).fun;
    if own.0 == 0 { f } else { own }
}

// The name that row `at` tells, told of the wanted class at slot `i`.
#[tactic(auto, using(ast::proofs::KindLaws::same_kind), unfolding(crate::specs::Put::copied_row))]
fn copied_row(out: &Rows<'_>, tables: Tables, wanted: Wanted, at: usize, i: u32) -> AnswerRow
    requires { at < length out.now.words.now / 8 }
    ensures { words_of result ≡ copied_row (outside_in tables.entry) tables.entry.sheet.now wanted out.now.words.now at i }
{
    let last = out.words[8 * at + 3];
    if wanted.kind == Kind::Field {
        return AnswerRow {
            row: wanted.row,
            code: Code::Field,
            one: i,
            two: last,
            three: 0,
            four: 0,
        };
    }
    let m = out.words[8 * at + 2];
    let fun = own_or(tables, wanted.class, m, FunId(last));
    AnswerRow {
        row: wanted.row,
        code: Code::Method,
        one: m,
        two: fun.0,
        three: 0,
        four: 0,
    }
}

// The names of `n` rows from row `i` on; the slot after them.
pub fn put_copied(
    out: &mut Rows<'_>,
    tables: Tables,
    wanted: Wanted,
    i: usize,
    n: u32,
    slot: u32,
) -> u32
    requires { (i + n ≤ out.old.count) × (i + n ≤ length out.old.words.now / 8) }
    ensures step { filled result out.new
        ≡ put_all (copied_row (outside_in tables.entry) tables.entry.sheet.now wanted out.old.words.now) (from i n)
        (filled slot out.old) }
    ensures same { out.new.words.ghost_name ≡ out.old.words.ghost_name }
{
    let mut next = slot;
    for at in i..i + n as usize {
        let x = copied_row(out, tables, wanted, at, next);
        next = put_row(out, x, next);
    }
    next
}
