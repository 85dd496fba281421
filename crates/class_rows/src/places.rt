// Where the rows of classes stand in the answer words: a table with an entry for each sheet row.
ghost use Rattle.std.specs.Prelude.{◌≡◌, not, ◌&&◌, ◌||◌, ◌/◌, ◌≤◌, eqb, ltb, length};
ghost use Rattle.definition.specs.Classes.{of_sheet};
ghost use Rattle.ast.specs.Kind.{kind_number};
ghost use Rattle.class_rows.specs.Places.{place_of, above_of};

use ast::kind::Kind;
use ast::{ClassId, FIRST_CLASS};
use sheet::is_class_row;
use sink::Rows;

// Where the names of a class stand: their first row and their number. Row 0: nowhere.
#[derive(Clone, Copy)]
pub struct Above {
    pub row: usize,
    pub count: u32,
}

// Where the fields and the methods of the parent of a class stand.
#[derive(Clone, Copy)]
pub struct Inherited {
    pub fields: Above,
    pub methods: Above,
}

// The entry of class `c`: one more than the answer row where it begins, or 0.
#[tactic(auto, unfolding(crate::specs::Places::place_of))]
pub fn place_of(starts: &[usize], c: ClassId) -> usize
    ensures { result ≡ place_of starts.now c.0 }
{
    match c.0.checked_sub(FIRST_CLASS) {
        Some(row) => starts.get(row as usize).copied().unwrap_or(0),
        None => 0,
    }
}

// Where the names of a class of entry `at` stand.
#[tactic(auto, using(ast::proofs::KindLaws::same_kind), unfolding(crate::specs::Places::above_of))]
pub fn above_of(out: &Rows<'_>, at: usize, kind: Kind) -> Above
    requires { at ≤ length out.now.words.now / 8 }
    ensures { result ≡ above_of out.now.words.now at (kind_number kind) }
{
    if at == 0 {
        return Above { row: 0, count: 0 };
    }
    let first = 8 * (at - 1);
    let fields = out.words[first + 4];
    if kind == Kind::Field {
        return Above {
            row: at,
            count: fields,
        };
    }
    Above {
        row: at + fields as usize,
        count: out.words[first + 5],
    }
}

// Is it known that the line of parents of the class of `row` ends within `row + 1` classes? Its parent `c` has the entry `at`, or is
// none of the sheet and has no parent.
pub fn line_ends(sheet: &[u32], at: usize, c: ClassId, row: u32) -> bool
    ensures { result ≡ (not (eqb at 0) || (not (of_sheet sheet.now c.0) && ltb 0 row)) }
{
    at != 0 || !is_class_row(sheet, c) && 0 < row
}
