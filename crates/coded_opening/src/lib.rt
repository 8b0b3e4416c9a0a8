// The opening of a session with its answer in three words, a code and two values.
#![tactic(auto)]

ghost use Rattle.context.specs.Parts.{shared};
ghost use Rattle.coded_opening.specs.Openings.{OpensCoded};

use answer_words::{Answer, in_words};
use session::{Session, Turn};

// The opening: the opened record, or the given one where it is refused.
pub fn open(
    session: Session,
    n: usize,
    used: usize,
    rows: &[u64],
    list: &[u64],
    background: &[u64],
) -> Turn<Answer>
    ensures { OpensCoded n used session (shared rows) (shared list) (shared background) result.answer result.session result.changed }
{
    match session_opening::open(n, used, rows, list, background) {
        Ok(made) => Turn::changed(made, in_words(Answer::TAKEN, 0, 0)),
        Err(refusal) => Turn::kept(session, Answer::from(refusal)),
    }
}
