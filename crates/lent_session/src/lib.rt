// The calls of a session over a record that is lent: each reads the record, makes the call by value, and stores the record where it
// changed. A call that only reads takes it by `&`.
#![tactic(auto)]

ghost use Rattle.context.specs.Parts.{mutable, shared};
ghost use Rattle.implication.specs.Closure.{implication};
ghost use Rattle.context.specs.Objects.{object};
ghost use Rattle.machine.specs.Machine.{step as stepping, accept as accepting, reject as rejecting, follow, refute, test, file, fill};
ghost use Rattle.machine.specs.Calls.{PerformsOn};
ghost use Rattle.session_steps.specs.Answers.{step_answer};
ghost use Rattle.session_queries.specs.Answers.{following_answer, refuting_answer};
ghost use Rattle.session_replies.specs.Answers.{reply_answer};
ghost use Rattle.session_test.specs.Answers.{testing_answer};

use session::{Refusal, Session};
use session_steps::Step;

// Finished at M; the standing question; or a move to the next closed set.
pub fn step(
    session: &mut Session,
    rows: &[u64],
    list: &[u64],
    background: &[u64],
) -> Result<Step, Refusal>
    ensures { PerformsOn stepping (mutable session) (shared rows) (shared list) (shared background) (step_answer result) }
{
    session_steps::make_step(*session, rows, list, background).store(session)
}

// 01's yes: the standing question becomes the next rule of the list, and the current set the next closed set.
pub fn accept(
    session: &mut Session,
    rows: &[u64],
    list: &mut [u64],
    background: &[u64],
) -> Result<(), Refusal>
    ensures { PerformsOn accepting (mutable session) (shared rows) (mutable list) (shared background) (reply_answer result) }
{
    session_yes::accept(*session, rows, list, background).store(session)
}

// 01's no: the offered row, which refutes the standing question, becomes the next row.
pub fn reject(
    session: &mut Session,
    rows: &mut [u64],
    list: &[u64],
    background: &[u64],
    yes: u64,
    no: u64,
) -> Result<(), Refusal>
    ensures { PerformsOn (rejecting (object yes no)) (mutable session) (mutable rows) (shared list) (shared background)
        (reply_answer result) }
{
    session_no::reject(*session, rows, list, background, yes, no).store(session)
}

// Whether an implication follows from those in force.
pub fn follows(
    session: &Session,
    rows: &[u64],
    list: &[u64],
    background: &[u64],
    premise: u64,
    conclusion: u64,
) -> Result<bool, Refusal>
    ensures { PerformsOn (follow (implication premise conclusion)) (shared session) (shared rows) (shared list) (shared background)
        (following_answer result) }
{
    session_queries::follows(*session, rows, list, background, premise, conclusion)
}

// Whether a row refutes an implication, with the first such row.
pub fn refuted(
    session: &Session,
    rows: &[u64],
    list: &[u64],
    background: &[u64],
    premise: u64,
    conclusion: u64,
) -> Result<Option<usize>, Refusal>
    ensures { PerformsOn (refute (implication premise conclusion)) (shared session) (shared rows) (shared list) (shared background)
        (refuting_answer result) }
{
    session_queries::refuted(*session, rows, list, background, premise, conclusion)
}

// 02's test: whether the offered row refutes the standing question.
pub fn test_row(
    session: &Session,
    rows: &[u64],
    list: &[u64],
    background: &[u64],
    yes: u64,
    no: u64,
) -> Result<(), Refusal>
    ensures { PerformsOn (test (object yes no)) (shared session) (shared rows) (shared list) (shared background) (testing_answer result) }
{
    session_test::test_row(*session, rows, list, background, yes, no)
}

// 02's filing: the offered row becomes the next row. No question has to stand.
pub fn file_row(
    session: &mut Session,
    rows: &mut [u64],
    list: &[u64],
    background: &[u64],
    yes: u64,
    no: u64,
) -> Result<(), Refusal>
    ensures { PerformsOn (file (object yes no)) (mutable session) (mutable rows) (shared list) (shared background) (reply_answer result) }
{
    session_filing::file_row(*session, rows, list, background, yes, no).store(session)
}

// 02's filling: the marks of the offered row are added to the row of this number. The record stays as it is.
pub fn fill_row(
    session: &mut Session,
    rows: &mut [u64],
    list: &[u64],
    background: &[u64],
    row: usize,
    yes: u64,
    no: u64,
) -> Result<(), Refusal>
    ensures { PerformsOn (fill row (object yes no)) (mutable session) (mutable rows) (shared list) (shared background)
        (reply_answer result) }
{
    session_late_marks::fill_row(*session, rows, list, background, row, yes, no)
}
