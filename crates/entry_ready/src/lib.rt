// Which entries are asked questions 5 to 22: after 1 to 4 of an entry by itself, 23 of it.
#![tactic(auto)]

ghost use Rattle.std.specs.Prelude.{◌≡◌, get_or};
ghost use Rattle.ast.specs.Question.{no_of};
ghost use Rattle.definition.specs.Sheet.{a};
ghost use Rattle.entry_ready.specs.Asked.{fits_over, entry_no};

use ast::column;
use ast::kind::Kind;
use ast::question::Question;
use first_four::first_four;
use session::layout;
use sheet::{kids, kids_of};
use words::{word, word_at};

// Question 23 of an entry: is it one unit without imports, and does it start at the session's global count or above?
fn entry_fits(words: &[u32], sheet: &[u32]) -> bool
    ensures { result ≡ fits_over (get_or words.now 0 0) sheet.now }
{
    let unit = word(sheet, 0, column::CHILD);
    kids(sheet, 0).count() == 1
        && kids_of(sheet, unit, Kind::Import).next().is_none()
        && word_at(words, layout::GLOBALS) <= word(sheet, 0, column::A)
}

// Questions 1 to 4 and 23 of an entry into a session past question 23; the error is the first that gets a no.
pub fn ask_entry(words: &[u32], sheet: &[u32], names: &[u8]) -> Result<(), Question>
    ensures { no_of result ≡ entry_no (get_or words.now 0 0) sheet.now names.now }
{
    first_four(sheet, names)?;
    if !entry_fits(words, sheet) {
        return Err(Question::Session);
    }
    Ok(())
}
