// The two read-only calls of a session, by value. Each takes the record and the lent words (row words, list words, background words),
// makes its checks, and writes none of the words.
#![tactic(auto)]

ghost use Rattle.context.specs.Parts.{shared};
ghost use Rattle.implication.specs.Closure.{implication};
ghost use Rattle.machine.specs.Machine.{follow, refute};
ghost use Rattle.machine.specs.Calls.{Performs};
ghost use Rattle.session_queries.specs.Answers.{following_answer, refuting_answer};

use session::{Refusal, Session};

// Whether an implication follows from those in force.
#[tactic(auto, using(crate::proofs::Answers::Laws::follow_refused, crate::proofs::Answers::Laws::follow_answered))]
pub fn follows(
    session: Session,
    rows: &[u64],
    list: &[u64],
    background: &[u64],
    premise: u64,
    conclusion: u64,
) -> Result<bool, Refusal>
    ensures { Performs (follow (implication premise conclusion)) session (shared rows) (shared list) (shared background)
        (following_answer result) session }
{
    session_checks::check_session(session, rows, list, background, premise, conclusion)?;
    Ok(following::follows_from(background, list, session.rules, premise, conclusion))
}

// Whether a row refutes an implication: the first such row.
#[tactic(auto, using(crate::proofs::Answers::Laws::refute_refused))]
pub fn refuted(
    session: Session,
    rows: &[u64],
    list: &[u64],
    background: &[u64],
    premise: u64,
    conclusion: u64,
) -> Result<Option<usize>, Refusal>
    ensures { Performs (refute (implication premise conclusion)) session (shared rows) (shared list) (shared background)
        (refuting_answer result) session }
{
    session_checks::check_session(session, rows, list, background, premise, conclusion)?;
    let used = session.rows;
    let row = refuting_rows::first_refuting(
        rows,
        used,
        background,
        list,
        session.rules,
        premise,
        conclusion,
    );
    if row < used { Ok(Some(row)) } else { Ok(None) }
}
