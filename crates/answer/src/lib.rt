// The answer of a sheet: refused, or with its rows.
#![tactic(auto)]

ghost use Rattle.std.specs.Prelude.{◌≡◌, ◌<◌, length, replicate};
ghost use Rattle.ast.specs.Question.{question_number};
ghost use Rattle.definition.specs.Sheet.{file as file_at};
ghost use Rattle.definition.specs.Outcome.{refused, refused_at};
ghost use Rattle.answer.specs.Tells.{Tells};
ghost use Rattle.answer.specs.Fitted.{Fitted};

use ast::column;
use ast::question::{Question, Refusal};
use lexer::SrcPos;
use words::{clear, word};

// The question that got a no (0: none), its position and the name asked about; the number of answer rows, and of globals.
#[derive(Clone, Copy)]
pub struct Answer {
    pub number: u32,
    pub pos: SrcPos,
    pub name: u32,
    pub rows: usize,
    pub globals: u32,
}

// Refuses by a question of the whole input, or for want of room: position and name are 0, and the answer words are cleared.
pub fn refuse(question: Question, out: &mut [u32]) -> Answer
    ensures { (Tells (refused (question_number question)) result) × (out.new ≡ replicate (length out.old) 0) }
{
    clear(out);
    Answer {
        number: question.number(),
        pos: SrcPos(0),
        name: 0,
        rows: 0,
        globals: 0,
    }
}

// Refuses at the position of a row.
pub fn refuse_at(sheet: &[u32], no: Refusal, out: &mut [u32]) -> Answer
    requires { file_at sheet.now no.at < 262144 }
    ensures { (Tells (refused_at (question_number no.question) sheet.now no.at no.name) result) × (out.new ≡ replicate (length out.old) 0) }
{
    let pos = SrcPos::new(
        word(sheet, no.at, column::FILE),
        word(sheet, no.at, column::LINE),
        word(sheet, no.at, column::COLUMN),
    );
    let mut answer = refuse(no.question, out);
    answer.pos = pos;
    answer.name = no.name;
    answer
}

// Answers with `n` rows written, and clears the words after them. Question 22: do they fit?
pub fn accept(n: usize, globals: u32, out: &mut [u32]) -> Answer
    ensures { Fitted n globals out.old result out.new }
{
    if out.len() / 8 < n {
        return refuse(Question::Room, out);
    }
    clear(&mut out[8 * n..]);
    Answer {
        number: 0,
        pos: SrcPos(0),
        name: 0,
        rows: n,
        globals,
    }
}
