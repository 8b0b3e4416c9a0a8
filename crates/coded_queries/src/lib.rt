// The calls of a session that change nothing, with answers in three words, a code and two values. They look alike and are three calls of C.
#![tactic(auto)]

ghost use Rattle.context.specs.Parts.{shared};
ghost use Rattle.implication.specs.Closure.{implication};
ghost use Rattle.context.specs.Objects.{object};
ghost use Rattle.machine.specs.Machine.{follow, refute, test};
ghost use Rattle.machine.specs.Calls.{Made};
ghost use Rattle.answer_words.specs.Codes.{code_of};

use answer_words::Answer;
use session::Session;

// Whether an implication follows from those in force.
pub fn follows(
    session: Session,
    rows: &[u64],
    list: &[u64],
    background: &[u64],
    premise: u64,
    conclusion: u64,
) -> Answer
    ensures { Made code_of (follow (implication premise conclusion)) session (shared rows) (shared list) (shared background)
        result session }
{
    let answer = session_queries::follows(session, rows, list, background, premise, conclusion);
    coded_answers::answer_of_following(answer)
}

// Whether a row refutes an implication, with the first such row.
pub fn refuted(
    session: Session,
    rows: &[u64],
    list: &[u64],
    background: &[u64],
    premise: u64,
    conclusion: u64,
) -> Answer
    ensures { Made code_of (refute (implication premise conclusion)) session (shared rows) (shared list) (shared background)
        result session }
{
    let answer = session_queries::refuted(session, rows, list, background, premise, conclusion);
    coded_answers::answer_of_refuting(answer)
}

// 02's test: whether the offered row refutes the standing question.
pub fn test_row(
    session: Session,
    rows: &[u64],
    list: &[u64],
    background: &[u64],
    yes: u64,
    no: u64,
) -> Answer
    ensures { Made code_of (test (object yes no)) session (shared rows) (shared list) (shared background) result session }
{
    let answer = session_test::test_row(session, rows, list, background, yes, no);
    coded_answers::answer_of_testing(answer)
}
