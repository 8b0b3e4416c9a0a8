// The step, the replies, the filing and the filling, with answers in three words, a code and two values.
#![tactic(auto)]

ghost use Rattle.std.specs.Prelude.{◌≡◌};
ghost use Rattle.context.specs.Parts.{mutable, shared};
ghost use Rattle.context.specs.Objects.{object};
ghost use Rattle.machine.specs.Machine.{step as stepping, accept as accepting, reject as rejecting, file, fill};
ghost use Rattle.machine.specs.Calls.{Made, Turned};
ghost use Rattle.session_replies.specs.Answers.{reply_answer};
ghost use Rattle.answer_words.specs.Codes.{code_of};

use answer_words::Answer;
use session::{Refusal, Session, Turn};

// What a reply or a filing gives back, with its answer in three words.
fn reply_in_words(made: Turn<Result<(), Refusal>>) -> Turn<Answer>
    ensures { result ≡ record { answer = code_of (reply_answer made.answer); session = made.session; changed = made.changed } }
{
    Turn {
        answer: coded_answers::answer_of_reply(made.answer),
        session: made.session,
        changed: made.changed,
    }
}

// Finished, moved, or the standing question.
pub fn step(session: Session, rows: &[u64], list: &[u64], background: &[u64]) -> Turn<Answer>
    ensures { Turned code_of stepping session (shared rows) (shared list) (shared background) result.answer result.session result.changed }
{
    let made = session_steps::make_step(session, rows, list, background);
    Turn {
        answer: coded_answers::answer_of_step(made.answer),
        session: made.session,
        changed: made.changed,
    }
}

// 01's yes: the standing question becomes the next rule of the list.
pub fn accept(session: Session, rows: &[u64], list: &mut [u64], background: &[u64]) -> Turn<Answer>
    ensures { Turned code_of accepting session (shared rows) (mutable list) (shared background)
        result.answer result.session result.changed }
{
    reply_in_words(session_yes::accept(session, rows, list, background))
}

// 01's no: the offered row becomes the next row.
pub fn reject(
    session: Session,
    rows: &mut [u64],
    list: &[u64],
    background: &[u64],
    yes: u64,
    no: u64,
) -> Turn<Answer>
    ensures { Turned code_of (rejecting (object yes no)) session (mutable rows) (shared list) (shared background)
        result.answer result.session result.changed }
{
    reply_in_words(session_no::reject(session, rows, list, background, yes, no))
}

// 02's filing: the offered row becomes the next row.
pub fn file_row(
    session: Session,
    rows: &mut [u64],
    list: &[u64],
    background: &[u64],
    yes: u64,
    no: u64,
) -> Turn<Answer>
    ensures { Turned code_of (file (object yes no)) session (mutable rows) (shared list) (shared background)
        result.answer result.session result.changed }
{
    reply_in_words(session_filing::file_row(session, rows, list, background, yes, no))
}

// 02's filling: the marks of the offered row are added to the row of this number.
pub fn fill_row(
    session: Session,
    rows: &mut [u64],
    list: &[u64],
    background: &[u64],
    row: usize,
    yes: u64,
    no: u64,
) -> Answer
    ensures { Made code_of (fill row (object yes no)) session (mutable rows) (shared list) (shared background) result session }
{
    let answer = session_late_marks::fill_row(session, rows, list, background, row, yes, no);
    coded_answers::answer_of_reply(answer)
}
