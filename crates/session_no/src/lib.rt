// The no to the standing question of a session, by value: the test of the offered row, and where it passes the filing. It takes the record
// and the lent words (row words, list words, background words), and gives the record back.
#![tactic(auto)]

ghost use Rattle.context.specs.Parts.{mutable, shared};
ghost use Rattle.context.specs.Objects.{object};
ghost use Rattle.machine.specs.Machine.{reject as rejecting};
ghost use Rattle.machine.specs.Calls.{Turns};
ghost use Rattle.session_replies.specs.Answers.{reply_answer};

use session::{Refusal, Session, Turn};

// 01's no: the offered row, which refutes the standing question, becomes the next row. The test makes checks 1 to 7 for both.
pub fn reject(
    session: Session,
    rows: &mut [u64],
    list: &[u64],
    background: &[u64],
    yes: u64,
    no: u64,
) -> Turn<Result<(), Refusal>>
    ensures { Turns (rejecting (object yes no)) session (mutable rows) (shared list) (shared background)
        (reply_answer result.answer) result.session result.changed }
{
    if let Err(refusal) = session_test::test_row(session, rows, list, background, yes, no) {
        return session_replies::refused(session, refusal);
    }
    checked_filing::file_checked(session, rows, list, background, yes, no)
}
