// The filing of an offered row, by value. It takes the record and the lent words (row words, list words, background words), makes its
// checks, writes the row, and gives the record back.
#![tactic(auto)]

ghost use Rattle.context.specs.Parts.{mutable, shared};
ghost use Rattle.context.specs.Objects.{object};
ghost use Rattle.machine.specs.Machine.{file};
ghost use Rattle.machine.specs.Calls.{Turns};
ghost use Rattle.session_replies.specs.Answers.{reply_answer};

use session::{Refusal, Session, Turn};

// 02's filing: the offered row becomes the next row. No question has to stand.
pub fn file_row(
    session: Session,
    rows: &mut [u64],
    list: &[u64],
    background: &[u64],
    yes: u64,
    no: u64,
) -> Turn<Result<(), Refusal>>
    ensures { Turns (file (object yes no)) session (mutable rows) (shared list) (shared background)
        (reply_answer result.answer) result.session result.changed }
{
    if let Err(refusal) = session_checks::check_session(session, rows, list, background, 0, 0) {
        return session_replies::refused(session, refusal);
    }
    checked_filing::file_checked(session, rows, list, background, yes, no)
}
