// Which names a class has: its own, and after inheritance. The kind of their rows tells which: fields, or methods.
ghost use Rattle.std.specs.Prelude.{◌≡◌};
ghost use Rattle.class_names.specs.Read.{outside_in, store_in};
ghost use Rattle.definition.specs.Basics.{◌∈?◌};
ghost use Rattle.outside.specs.Words.{over};
ghost use Rattle.outside.specs.Found.{recorded_names};
ghost use Rattle.store.specs.declared.nodes.Store.{Store};
ghost use Rattle.ast.specs.Kind.{kind_number};
ghost use Rattle.class_names.specs.Names.{row_names, own_in, names_in, inherited};

use crate::tables::Tables;
use ast::kind::Kind;
use ast::{ClassId, FIRST_CLASS};
use inherit::parent_of;
use outside::records::recorded_names;
use sheet::{has_named, is_class_row};
use store::nodes::has_key;
use store::result;
use words::word;

// Is `m` a name of a class from outside?
fn is_recorded(outside: &[u32], kind: Kind, c: ClassId, m: u32) -> bool
    ensures { result ≡ (m ∈? recorded_names (over outside.now) (kind_number kind) c.0) }
{
    recorded_names(outside, kind, c).any(|name| name == m)
}

// Is `m` an own name of the class of `row`? Fields are listed or stored.
fn is_row_name(tables: Tables, kind: Kind, row: u32, m: u32) -> bool
    ensures { (o : Store) → result ≡ (m ∈? row_names tables.entry.sheet.now (store_in tables.entry o) (kind_number kind) row) }
{
    has_named(tables.sheet, row, kind, m)
        || kind == Kind::Field
            && has_key(tables.nodes, word(tables.results, row, result::FIELDS), m)
}

// Is `m` an own name of a class?
#[tactic(auto, unfolding(crate::specs::Names::own_in))]
fn is_own(tables: Tables, kind: Kind, c: ClassId, m: u32) -> bool
    ensures { (o : Store) → result ≡
        (m ∈? own_in (outside_in tables.entry) tables.entry.sheet.now
        (store_in tables.entry o) (kind_number kind) c.0) }
{
    if is_class_row(tables.sheet, c) {
        return is_row_name(tables, kind, c.0 - FIRST_CLASS, m);
    }
    is_recorded(tables.outside, kind, c, m)
}

// Is `m` a name of class `c` after inheritance? It climbs at most `n` classes.
fn has_name(tables: Tables, kind: Kind, n: usize, c: ClassId, m: u32) -> bool
    ensures { (o : Store) → result ≡
        (m ∈? names_in (outside_in tables.entry) tables.entry.sheet.now
        (store_in tables.entry o) (kind_number kind) n c.0) }
{
    let mut class = c;
    for _ in 0..n {
        if is_own(tables, kind, class, m) {
            return true;
        }
        class = parent_of(tables.sheet, tables.results, class);
        if class.0 == 0 {
            return false;
        }
    }
    false
}

// Is `m` inherited from the parent `p`? No class has number 0.
#[tactic(auto, unfolding(crate::specs::Names::inherited))]
pub fn is_inherited(tables: Tables, kind: Kind, n: usize, p: ClassId, m: u32) -> bool
    ensures { (o : Store) → result ≡
        (m ∈? inherited (outside_in tables.entry) tables.entry.sheet.now
        (store_in tables.entry o) (kind_number kind) n p.0) }
{
    p.0 != 0 && has_name(tables, kind, n, p, m)
}
