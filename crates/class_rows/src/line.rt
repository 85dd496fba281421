// The names of a class: those of its parent copied where they stand in the answer words, else climbed for; then the own ones.
ghost use Rattle.std.specs.Prelude.{◌≡◌, ◌<◌, min, length};
ghost use Rattle.class_names.specs.Read.{outside_in, store_in};
ghost use Rattle.definition.specs.Sheet.{rows};
ghost use Rattle.store.specs.declared.nodes.Store.{Store};
ghost use Rattle.class_names.specs.Names.{names_in};
ghost use Rattle.name_rows.specs.Put.{filled, name_row, put_all};
ghost use Rattle.ast.specs.Kind.{kind_number};
ghost use Rattle.class_rows.specs.Places.{Shown, Counted};

use crate::places::Above;
use class_names::tables::Tables;
use inherit::parent_of;
use name_rows::copied::put_copied;
use name_rows::put::{Passed, Wanted, count_names, put_names, put_own};
use sink::Rows;

// The names of the wanted class; the slot after them.
#[tactic(auto, using(crate::proofs::LineLaws::line_after, crate::proofs::LineLaws::copied_all))]
pub fn put_line(out: &mut Rows<'_>, tables: Tables, wanted: Wanted, a: Above, slot: u32) -> u32
    requires { (0 < rows tables.sheet.now) ×
        (Shown tables (kind_number wanted.kind) wanted.class.0 out.old.words.now out.old.count a) }
    ensures step { (o : Store) → filled result out.new
        ≡ put_all (name_row (outside_in tables.entry) tables.entry.sheet.now (store_in tables.entry o) wanted)
        (names_in (outside_in tables.entry) tables.entry.sheet.now (store_in tables.entry o) (kind_number wanted.kind)
        (rows tables.entry.sheet.now) wanted.class.0) (filled slot out.old) }
    ensures same { out.new.words.ghost_name ≡ out.old.words.ghost_name }
{
    let n = tables.sheet.len() / 8;
    let c = wanted.class;
    if a.row == 0 {
        return put_names(out, &tables, wanted, n, c, slot);
    }
    let p = Passed {
        class: parent_of(tables.sheet, tables.results, c),
        left: n - 1,
    };
    let next = put_copied(out, tables, wanted, a.row, a.count, slot);
    put_own(out, &tables, wanted, p, c, next)
}

// How many names the wanted class has, or the largest number of a word.
pub fn count_line(tables: Tables, wanted: Wanted, a: Above) -> u32
    requires { (0 < rows tables.sheet.now) × (Counted tables (kind_number wanted.kind) wanted.class.0 a) }
    ensures { (o : Store) → result ≡ min
        (length (names_in (outside_in tables.entry) tables.entry.sheet.now (store_in tables.entry o)
        (kind_number wanted.kind) (rows tables.entry.sheet.now) wanted.class.0)) 4294967295 }
{
    let n = tables.sheet.len() / 8;
    let c = wanted.class;
    if a.row == 0 {
        return count_names(tables, wanted, n, c);
    }
    let mut none = [0u32; 1];
    let mut out = Rows {
        words: &mut none,
        count: 0,
    };
    let p = Passed {
        class: parent_of(tables.sheet, tables.results, c),
        left: n - 1,
    };
    put_own(&mut out, &tables, wanted, p, c, a.count)
}
