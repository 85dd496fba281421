// The child lists of a sheet, row by row. They give no more rows than the sheet has, so they also end where the links form a circle.
ghost use Rattle.std.specs.Prelude.{◌≡◌, ◌+◌, ◌*◌};
ghost use Rattle.std.specs.Iterator.{YieldsFirst, item_count};
ghost use Rattle.ast.specs.Kind.{kind_number};
ghost use Rattle.definition.specs.Sheet.{chain, next, rows, kids as kids_in, kids_of as kids_of_in};
ghost use Rattle.sheet.specs.Rest.{rows_left, kind_left};

use ast::column;
use ast::kind::Kind;
use words::{word, word_at};

// The rows of a child list, at most `left` of them. The next is the word at place `link`, which is read when its row is asked for: measured, since a
// word read ahead takes a branch more for each row.
#[derive(Clone, Copy)]
pub struct ChildRows<'a> {
    pub sheet: &'a [u32],
    pub link: usize,
    pub left: usize,
}

// The place of a word of a row.
fn place(row: u32, column: u32) -> usize
    ensures { result ≡ 8 * row + column }
{
    8 * (row as usize) + (column as usize)
}

impl<'a> Iterator for ChildRows<'a> {
    type Item = u32;

    ghost next_gives = { YieldsFirst rows_left };

    ghost remaining = { item_count rows_left };

    // Measured: as a call it takes half as long again for long lists, here and below.
    #[inline(always)]
    fn next(&mut self) -> Option<u32> {
        let row = word_at(self.sheet, self.link);
        if row == 0 {
            return None;
        }
        self.left = self.left.checked_sub(1)?;
        self.link = place(row, column::NEXT);
        Some(row)
    }
}

// Those of them that are of a kind.
#[derive(Clone, Copy)]
pub struct KindRows<'a> {
    pub sheet: &'a [u32],
    pub kind: Kind,
    pub rows: ChildRows<'a>,
}

impl<'a> Iterator for KindRows<'a> {
    type Item = u32;

    ghost next_gives = { YieldsFirst kind_left };

    ghost remaining = { item_count kind_left };

    #[inline(always)]
    fn next(&mut self) -> Option<u32> {
        // Measured: read inside the loop, the number of the kind is looked up in a table for each row.
        let kind = self.kind as u32;
        while let Some(row) = self.rows.next() {
            if word(self.sheet, row, column::KIND) == kind {
                return Some(row);
            }
        }
        None
    }
}

// The children of a row.
pub fn kids(sheet: &[u32], row: u32) -> ChildRows<'_>
    ensures { rows_left result ≡ kids_in sheet.now row }
{
    ChildRows {
        sheet,
        link: place(row, column::CHILD),
        left: sheet.len() / 8,
    }
}

// The rows that follow a row in its child list: the same iterator as of the children, from another link, so both are one struct each.
pub fn siblings_after(sheet: &[u32], row: u32) -> ChildRows<'_>
    ensures { rows_left result ≡ chain (rows sheet.now) sheet.now (next sheet.now row) }
{
    ChildRows {
        sheet,
        link: place(row, column::NEXT),
        left: sheet.len() / 8,
    }
}

// The children of a row that are of a kind.
pub fn kids_of(sheet: &[u32], row: u32, kind: Kind) -> KindRows<'_>
    ensures { kind_left result ≡ kids_of_in sheet.now (kind_number kind) row }
{
    KindRows {
        sheet,
        kind,
        rows: kids(sheet, row),
    }
}
