// A sheet stored by column, for disks (document 02, F-12), and the way back. Only the sheet's size is asked, not what its words say.
#![tactic(auto)]

ghost use Rattle.std.specs.Prelude.{◌≡◌, ◌++◌, ◌*◌, ◌<◌, ◌≤◌, length, drop};
ghost use Rattle.ast.specs.Question.{no_of};
ghost use Rattle.definition.specs.Sheet.{rows as rows_of};
ghost use Rattle.columns.specs.Columns.{is_link, first_no, Rearranged};
ghost use Rattle.columns.specs.Ways.{height, width, moved, word_of, way_of, opposite};

use ast::column;
use ast::question::Question;
use words::{clear, sheet_sized};

// Which way a sheet goes: into columns, or back into rows.
#[derive(Clone, Copy, Debug, PartialEq, Eq)]
pub enum Way {
    ToColumns,
    ToRows,
}

// Questions 1 and 22: is it a sheet, and has the target room for it?
#[tactic(auto, unfolding(crate::specs::Columns::first_no))]
fn check_sizes(source: &[u32], lent: usize) -> Result<(), Question>
    ensures { no_of result ≡ first_no source.now lent }
{
    if !sheet_sized(source) {
        return Err(Question::RowsFit);
    }
    if lent < source.len() {
        return Err(Question::Room);
    }
    Ok(())
}

// Do the words of column c link rows?
#[tactic(auto, unfolding(crate::specs::Columns::is_link))]
fn is_link(c: u32) -> bool
    ensures { result ≡ is_link c }
{
    c == column::NEXT || c == column::CHILD
}

// Word c of row r on the way: a link is stored as its difference from the row, modulo 2^32.
#[tactic(auto, unfolding(crate::specs::Columns::stored, crate::specs::Columns::restored))]
fn moved(way: Way, c: u32, r: u32, word: u32) -> u32
    ensures { result ≡ moved way c r word }
{
    if !is_link(c) {
        return word;
    }
    match way {
        Way::ToColumns => word.wrapping_sub(r),
        Way::ToRows => word.wrapping_add(r),
    }
}

// The height and width of the table that is written of so many rows.
fn table_size(way: Way, rows: usize) -> (usize, usize)
    ensures { (result.0 ≡ height way rows) × (result.1 ≡ width way rows) }
{
    match way {
        Way::ToColumns => (8, rows),
        Way::ToRows => (rows, 8),
    }
}

// The number at place j of line i of that table.
fn word_of(way: Way, source: &[u32], i: usize, j: usize) -> u32
    requires whole { (8 * rows_of source.now ≡ length source.now) × (rows_of source.now ≤ 2048) }
    requires within { (i < height way (rows_of source.now)) × (j < width way (rows_of source.now)) }
    ensures { result ≡ word_of way source.now i j }
{
    match way {
        Way::ToColumns => moved(way, i as u32, j as u32, source[8 * j + i]),
        Way::ToRows => moved(way, j as u32, i as u32, source[j * (source.len() / 8) + i]),
    }
}

// Writes a sheet by column, or the sheet that a source by column stands for, place by place.
fn write(way: Way, source: &[u32], target: &mut [u32])
    requires { (8 * rows_of source.now ≡ length source.now) × (rows_of source.now ≤ 2048) × (length source.now ≤ length target.old) }
    ensures { target.new ≡ way_of way source.now ++ drop (length source.now) target.old }
{
    let (height, width) = table_size(way, source.len() / 8);
    for i in 0..height {
        for j in 0..width {
            target[i * width + j] = word_of(way, source, i, j);
        }
    }
}

// Stores a sheet by column, or takes one back. An error is the question that got a no, 1 or 22, and then the whole target is zero.
pub fn rearrange(way: Way, source: &[u32], target: &mut [u32]) -> Result<(), Question>
    ensures { Rearranged (way_of way) (way_of (opposite way)) source.now (length target.old) (no_of result) target.new }
{
    if let Err(no) = check_sizes(source, target.len()) {
        clear(target);
        return Err(no);
    }
    write(way, source, target);
    clear(&mut target[source.len()..]);
    Ok(())
}
