// The test of an offered row, by value. It takes the record and the lent words (row words, list words, background words), makes its
// checks, and writes none of the words.
#![tactic(auto)]

ghost use Rattle.context.specs.Parts.{shared};
ghost use Rattle.context.specs.Objects.{object};
ghost use Rattle.machine.specs.Machine.{test};
ghost use Rattle.machine.specs.Calls.{Performs};
ghost use Rattle.session_test.specs.Answers.{testing_answer};

use session::{Refusal, Session};

// 02's test: whether the offered row refutes the standing question.
#[tactic(auto, using(crate::proofs::Answers::Laws::test_refused, crate::proofs::Answers::Laws::test_passed))]
pub fn test_row(
    session: Session,
    rows: &[u64],
    list: &[u64],
    background: &[u64],
    yes: u64,
    no: u64,
) -> Result<(), Refusal>
    ensures { Performs (test (object yes no)) session (shared rows) (shared list) (shared background) (testing_answer result) session }
{
    reply_checks::check_test(session, rows, list, background, yes, no)?;
    Ok(())
}
