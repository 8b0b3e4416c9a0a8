// The replay of a log of calls, with its answer in three words.
#![tactic(auto)]

ghost use Rattle.context.specs.Parts.{mutable, shared};
ghost use Rattle.call_logs.specs.Replay.{ReplaysCoded};

use answer_words::{Answer, in_words};
use call_logs::NoRoom;
use session::{Session, Turn};

// Makes each call of a log and writes down its answer; whether that was done, in three words.
pub fn replay_coded(
    session: Session,
    rows: &mut [u64],
    list: &mut [u64],
    background: &[u64],
    calls: &[u64],
    answers: &mut [u64],
) -> Turn<Answer>
    ensures { ReplaysCoded session (mutable rows) (mutable list) (shared background) (shared calls) (mutable answers)
        result.answer result.session result.changed }
{
    match call_logs::replay(session, rows, list, background, calls, answers) {
        Ok(after) => Turn {
            answer: in_words(Answer::TAKEN, 0, 0),
            session: after,
            changed: session::differ(session, after),
        },
        Err(NoRoom) => Turn::kept(session, in_words(Answer::NO_ROOM, 0, 0)),
    }
}
