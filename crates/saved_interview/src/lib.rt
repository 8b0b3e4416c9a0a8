// A saved interview taken up again: a session is opened, and a log of calls is made on it.
#![tactic(auto)]

ghost use Rattle.context.specs.Parts.{mutable, shared};
ghost use Rattle.saved_interview.specs.TakingUp.{TakesUpTo};

use answer_words::{Answer, in_words};
use call_logs::NoRoom;
use session::{Session, Turn};

// Opens a session and makes each call of a log, with its answer written down. Nothing is done where the opening is refused, and where the
// answers have no room for all calls.
pub fn open_and_replay(
    session: Session,
    n: usize,
    used: usize,
    rows: &mut [u64],
    list: &mut [u64],
    background: &[u64],
    calls: &[u64],
    answers: &mut [u64],
) -> Turn<Answer>
    ensures { TakesUpTo n used session (mutable rows) (mutable list) (shared background) (shared calls) (mutable answers)
        result.answer result.session result.changed }
{
    let start = match session_opening::open(n, used, rows, list, background) {
        Ok(start) => start,
        Err(refusal) => return Turn::kept(session, Answer::from(refusal)),
    };
    match call_logs::replay(start, rows, list, background, calls, answers) {
        Ok(after) => Turn::changed(after, in_words(Answer::TAKEN, 0, 0)),
        Err(NoRoom) => Turn::kept(session, in_words(Answer::NO_ROOM, 0, 0)),
    }
}
