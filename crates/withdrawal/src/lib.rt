// Withdrawals at a prompt (document 02, F-7): the latest accepted entry of a session in lent words and bytes is taken back. Its runs are cut by their counts, and
// nothing is moved; then the names on show are counted again (F-8).
#![tactic(auto)]

ghost use Rattle.std.specs.Prelude.{◌≡◌, [], ◌<◌, ◌≤◌, get_or};
ghost use Rattle.ast.specs.Question.{no_of};
ghost use Rattle.definition.specs.Outcome.{refused};
ghost use Rattle.answer.specs.Tells.{Tells};
ghost use Rattle.session.specs.Words.{whole};
ghost use Rattle.session.specs.Withdraw.{words_without, withdraw_no};
ghost use Rattle.withdrawal.specs.Withdrawn.{Withdrawn};

use answer::Answer;
use ast::question::Question;
use lexer::SrcPos;
use names_shown::count_shown;
use session::layout;
use session::lent::LentSession;
use session_check::check_session;
use session_names::space::{NameSpace, PLACES, STARTS};
use session_outside::runs::SessionRuns;
use session_rows::{count, count_before, number_at};
use words::{put_at, put_words, word_at};

// The questions of a withdrawal; the error is the first that gets a no.
fn ask_withdrawal(session: LentSession<'_>) -> Result<(), Question>
    ensures { no_of result ≡ withdraw_no whole session.entry.words.now session.entry.bytes.now }
{
    let mut starts = [0u32; STARTS];
    let mut index = [0u32; PLACES];
    let space = NameSpace {
        starts: &mut starts,
        index: &mut index,
    };
    check_session(session, space).ok_or(Question::Session)?;
    if word_at(session.words, layout::ENTRIES) == 0 {
        return Err(Question::EntryLeft);
    }
    Ok(())
}

// Writes one entry less, and the counts that the row before the latest one tells. Words alone: no byte is read or written.
#[tactic(auto, using(crate::proofs::WithdrawLaws::counts_cut))]
fn cut_counts(words: &mut [u32])
    requires { (0 < get_or words.old 1 0) × (get_or words.old 1 0 ≤ 1000) }
    ensures { words.new ≡ words_without whole words.old [] }
{
    let entries = number_at(words, layout::ENTRIES);
    let left = entries - 1;
    let names = count_before(words, left, count::NAMES);
    let bytes = count_before(words, left, count::NAME_BYTES);
    let laid = count_before(words, left, count::DECLARATIONS);
    let classes = count_before(words, left, count::CLASSES);
    let members = count_before(words, left, count::MEMBERS);
    put_at(words, layout::ENTRIES, left as u32);
    put_words(
        words,
        layout::COUNTS,
        &[
            names as u32,
            bytes as u32,
            laid as u32,
            classes as u32,
            members as u32,
        ],
    );
}

// The answer of a withdrawal: the question that got a no, or 0.
#[tactic(auto, using(lexer::proofs::Laws::file_none, lexer::proofs::Laws::line_none, lexer::proofs::Laws::column_none))]
fn answer_of(number: u32) -> Answer
    ensures { Tells (refused number) result }
{
    Answer {
        number: number,
        pos: SrcPos(0),
        name: 0,
        rows: 0,
        globals: 0,
    }
}

// Withdraws the latest accepted entry of the session of the lent words and bytes. For every input the answer and every word of the session are those of document
// 02; no byte is written.
pub fn withdraw(words: &mut [u32], bytes: &[u8]) -> Answer
    ensures { Withdrawn words.old bytes.now result words.new }
{
    if let Err(no) = ask_withdrawal(LentSession { words, bytes }) {
        return answer_of(no.number());
    }
    cut_counts(words);
    let shown = count_shown(SessionRuns { words });
    put_at(words, layout::SHOWN, shown);
    answer_of(0)
}
