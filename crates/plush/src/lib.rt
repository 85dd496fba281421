// The library to link: what C, or Rust through `bindings/rust`, calls. `include/plush.h` declares it.
#![tactic(auto)]

ghost use Rattle.std.specs.Prelude.{◌≡◌, not, eqb, length};
ghost use Rattle.ast.specs.Question.{no_of};
ghost use Rattle.columns.specs.Columns.{to_columns, from_columns, Rearranged};
ghost use Rattle.fresh_session.specs.Fresh.{Fresh};
ghost use Rattle.plush.specs.Found.{NameFound};
ghost use Rattle.plush.specs.Named.{NameTold};
ghost use Rattle.plush.specs.Resolved.{Resolved};
ghost use Rattle.plush.specs.SessionEntered.{SessionEntered};
ghost use Rattle.plush.specs.SessionPreviewed.{SessionPreviewed};
ghost use Rattle.plush.specs.SessionWithdrawn.{SessionWithdrawn};
ghost use Rattle.plush.specs.UnitsOrdered.{UnitsOrdered};

use ast::question::no_number;
use columns::{Way, rearrange};
use fresh_session::fresh;
use name_index::find_name;
use name_place::name_place;
use order_units::order_units;
use preview::preview;
use prompt::enter;
use report::{first_line, write_fitted};
use resolver::resolve;
use withdrawal::withdraw;

// Resolves a sheet with its names into the lent answer words, and writes the report's first line into the lent report words, as
// far as they go. Returns the number of the question that got a no, or 0.
#[unsafe(no_mangle)]
pub extern "C" fn plush_resolve(
    sheet: &[u32],
    names: &[u8],
    out: &mut [u32],
    report: &mut [u32],
) -> u32
    ensures { Resolved sheet.now names.now (length out.old) (length report.old)
        result out.new report.new }
{
    let x = resolve(sheet, names, out);
    let line = first_line(x);
    write_fitted(&line, report);
    x.number
}

// Writes the order in which a sheet's units start into the lent list, a word for each unit: its row; and the report's first line into the lent report
// words, as far as they go. Returns the number of the question that got a no, 1 to 4, 29 or 22, or 0.
#[unsafe(no_mangle)]
pub extern "C" fn plush_order_units(
    sheet: &[u32],
    names: &[u8],
    list: &mut [u32],
    report: &mut [u32],
) -> u32
    ensures { UnitsOrdered sheet.now names.now (length list.old) (length report.old)
        result list.new report.new }
{
    let x = order_units(sheet, names, list);
    let line = first_line(x);
    write_fitted(&line, report);
    x.number
}

// Stores a sheet by column in the lent target. Returns 0, or the question that got a no: 1 or 22.
#[unsafe(no_mangle)]
pub extern "C" fn plush_to_columns(source: &[u32], target: &mut [u32]) -> u32
    ensures { Rearranged to_columns from_columns source.now (length target.old) result target.new }
{
    no_number(rearrange(Way::ToColumns, source, target))
}

// The way back: the sheet that was stored by column.
#[unsafe(no_mangle)]
pub extern "C" fn plush_from_columns(source: &[u32], target: &mut [u32]) -> u32
    ensures { Rearranged from_columns to_columns source.now (length target.old) result target.new }
{
    no_number(rearrange(Way::ToRows, source, target))
}

// Finds bytes among the fixed names and those of a list. Returns the number, 0 where they are absent or the list is refused by question 2; and
// writes it, and how many places of the index were read, into the lent words as far as they go.
#[unsafe(no_mangle)]
pub extern "C" fn plush_find_name(names: &[u8], name: &[u8], found: &mut [u32]) -> u32
    ensures { NameFound names.now name.now (length found.old) result found.new }
{
    let x = find_name(names, name);
    let number = x.number.unwrap_or(0);
    write_fitted(&[number, x.places], found);
    number
}

// Makes the session in the lent words and bytes a fresh one.
#[unsafe(no_mangle)]
pub extern "C" fn plush_session_fresh(words: &mut [u32], bytes: &mut [u8])
    ensures { Fresh (length words.old) (length bytes.old) words.new bytes.new }
{
    fresh(words, bytes);
}

// Enters a sheet with its names into the session of the lent words and bytes, its answer rows into the lent answer words, and writes the report's first line
// into the lent report words, as far as they go. Returns the number of the question that got a no, or 0.
#[unsafe(no_mangle)]
pub extern "C" fn plush_enter(
    words: &mut [u32],
    bytes: &mut [u8],
    sheet: &[u32],
    names: &[u8],
    out: &mut [u32],
    report: &mut [u32],
) -> u32
    ensures { SessionEntered words.old bytes.old sheet.now names.now (length out.old)
        (length report.old) result out.new report.new words.new bytes.new }
{
    let x = enter(words, bytes, sheet, names, out);
    let line = first_line(x);
    write_fitted(&line, report);
    x.number
}

// What `plush_enter` would return and write into the lent answer and report words. The session is only read.
#[unsafe(no_mangle)]
pub extern "C" fn plush_preview(
    words: &[u32],
    bytes: &[u8],
    sheet: &[u32],
    names: &[u8],
    out: &mut [u32],
    report: &mut [u32],
) -> u32
    ensures { SessionPreviewed words.now bytes.now sheet.now names.now (length out.old)
        (length report.old) result out.new report.new }
{
    let x = preview(words, bytes, sheet, names, out);
    let line = first_line(x);
    write_fitted(&line, report);
    x.number
}

// Withdraws the latest accepted entry of the session of the lent words and bytes, and writes the report's first line into the lent report words, as far as
// they go. Returns the number of the question that got a no, or 0.
#[unsafe(no_mangle)]
pub extern "C" fn plush_withdraw(words: &mut [u32], bytes: &[u8], report: &mut [u32]) -> u32
    ensures { SessionWithdrawn words.old bytes.now (length report.old) result report.new words.new }
{
    let x = withdraw(words, bytes);
    let line = first_line(x);
    write_fitted(&line, report);
    x.number
}

// Tells where the text of a name stands: in the session's bytes or in an entry's names, from which byte on, and in how many; as far as the lent words
// go. Returns how many bytes it has, 0 where the number names nothing, or the list in which it would stand is refused.
#[unsafe(no_mangle)]
pub extern "C" fn plush_name_text<'a>(
    words: &[u32],
    bytes: &'a [u8],
    names: &'a [u8],
    whose: u32,
    number: u32,
    place: &mut [u32],
) -> u32
    ensures { NameTold words.now bytes.now names.now (not (eqb whose 0)) number
        (length place.old) result place.new }
{
    let x = name_place(words, bytes, names, whose, number);
    let told = [x.list, x.start, x.length];
    write_fitted(&told, place);
    x.length
}
