// The step of a session, by value. It takes the record and the lent words (row words, list words, background words), makes its checks,
// writes none of the words, and gives the record back.
#![tactic(auto)]

ghost use Rattle.context.specs.Parts.{shared};
ghost use Rattle.machine.specs.Machine.{step as stepping};
ghost use Rattle.machine.specs.Calls.{Turns};
ghost use Rattle.session_steps.specs.Answers.{step_answer};

use session::{Refusal, Session, Turn};
use standing::{Question, Standing};

#[derive(Clone, Copy)]
pub enum Step {
    Finished,
    Moved,
    Asked(Question),
}

// Finished at M; the standing question; or a move to the next closed set.
pub fn make_step(
    session: Session,
    rows: &[u64],
    list: &[u64],
    background: &[u64],
) -> Turn<Result<Step, Refusal>>
    ensures { Turns stepping session (shared rows) (shared list) (shared background)
        (step_answer result.answer) result.session result.changed }
{
    match standing::find_standing(session, rows, list, background) {
        Err(refusal) => Turn::kept(session, Err(refusal)),
        Ok(Standing::Full) => Turn::kept(session, Ok(Step::Finished)),
        Ok(Standing::Open(question)) => Turn::kept(session, Ok(Step::Asked(question))),
        Ok(Standing::Tight) => {
            let current = closed_sets::next_of(
                background,
                list,
                session.rules,
                session.n,
                session.current,
            );
            Turn::changed(Session { current, ..session }, Ok(Step::Moved))
        }
    }
}
