// Questions 1 to 4 of document 01 about a sheet and its name list.
#![tactic(auto)]

ghost use Rattle.std.specs.Prelude.{◌≡◌};
ghost use Rattle.ast.specs.Question.{no_of};
ghost use Rattle.first_four.specs.Questions.{first_four};

mod format;

use crate::format::format_question;
use ast::name;
use ast::question::Question;
use words::sheet_sized;

// Questions 1 to 4; the error is the first that gets a no.
pub fn first_four(words: &[u32], names: &[u8]) -> Result<(), Question>
    ensures { no_of result ≡ first_four words.now names.now }
{
    if !sheet_sized(words) {
        return Err(Question::RowsFit);
    }
    if !name_index::names_fit(names) {
        return Err(Question::NamesFit);
    }
    let last = name::LAST_FIXED + names::count_names(names);
    format_question(words, last as u32)
}
