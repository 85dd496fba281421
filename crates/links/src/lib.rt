// The links of a sheet: do all go to higher rows, and is every row but 0 linked exactly once?
#![tactic(auto)]

ghost use Rattle.std.specs.Prelude.{◌≡◌, true, ◌||◌, ℕ, ◌<◌, ◌≤◌, eqb, length, get_or};
ghost use Rattle.definition.specs.Basics.{all, from};
ghost use Rattle.definition.specs.Sheet.{rows};
ghost use Rattle.definition.specs.Format.{link_rises, links_rise, linked_once, links};
ghost use Rattle.links.specs.Counting.{Counts};

use ast::column;

// Links are read by index and not by `word`: measured, as its test of the place costs a third more for each link.
const NEXT: usize = column::NEXT as usize;

const CHILD: usize = column::CHILD as usize;

// Is `link` no link, or one from `row` to a higher row?
fn link_rises(sheet: &[u32], row: usize, link: usize) -> bool
    ensures { result ≡ link_rises sheet.now row link }
{
    link == 0 || row < link && link < sheet.len() / 8
}

fn both_rise(sheet: &[u32], row: usize) -> bool
    requires { row < rows sheet.now }
    ensures { result ≡ links_rise sheet.now row }
{
    link_rises(sheet, row, sheet[8 * row + NEXT] as usize)
        && link_rises(sheet, row, sheet[8 * row + CHILD] as usize)
}

pub fn links_rise(sheet: &[u32]) -> bool
    requires { rows sheet.now ≤ 2048 }
    ensures { result ≡ all (links_rise sheet.now) (from 0 (rows sheet.now)) }
{
    (0..sheet.len() / 8).all(|row| both_rise(sheet, row))
}

// Counts the links to each row in `seen`, all zero at first; the missing links count for row 0.
fn count_links(sheet: &[u32], seen: &mut [u32])
    requires { (rows sheet.now ≤ 2048) × (rows sheet.now ≤ length seen.old)
        × (all (links_rise sheet.now) (from 0 (rows sheet.now)) ≡ true) × ((k : ℕ) → k < rows sheet.now → get_or seen.old k 0 ≡ 0) }
    ensures { Counts sheet.now (rows sheet.now) seen.new }
{
    for row in 0..sheet.len() / 8 {
        let next = sheet[8 * row + NEXT] as usize;
        let child = sheet[8 * row + CHILD] as usize;
        seen[next] += 1;
        seen[child] += 1;
    }
}

// Is every count but that of row 0 one, of the first n?
fn all_once(n: usize, seen: &[u32]) -> bool
    requires { n ≤ length seen.now }
    ensures { result ≡ all (λ k. eqb k 0 || eqb (get_or seen.now k 0) 1) (from 0 n) }
{
    (1..n).all(|k| seen[k] == 1)
}

// Is every row but 0 linked exactly once? `seen` has a zero for each row.
pub fn linked_once(sheet: &[u32], seen: &mut [u32]) -> bool
    requires { (rows sheet.now ≤ 2048) × (rows sheet.now ≤ length seen.old)
        × (all (links_rise sheet.now) (from 0 (rows sheet.now)) ≡ true) × ((k : ℕ) → k < rows sheet.now → get_or seen.old k 0 ≡ 0) }
    ensures { result ≡ all (linked_once (links sheet.now)) (from 0 (rows sheet.now)) }
{
    count_links(sheet, seen);
    all_once(sheet.len() / 8, seen)
}
