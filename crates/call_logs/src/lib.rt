// Logs of calls: each call made through the call of its kind, its answer in three words written down.
#![tactic(auto)]

ghost use Rattle.context.specs.Parts.{mutable, shared};
ghost use Rattle.std.specs.Prelude.{◌≡◌, ◌+◌, ◌*◌, ◌≤◌, length};
ghost use Rattle.call_logs.specs.Replay.{stored, Replays};

use answer_words::Answer;
use session::Session;

// The answers have no room for all calls.
#[derive(Clone, Copy)]
pub struct NoRoom;

// The three words of an answer at its place.
fn write_answer(answers: &mut [u64], i: usize, answer: Answer)
    requires { (i + 1) * 3 ≤ length answers.old }
    ensures { answers.new ≡ stored answers.old i answer }
{
    let at = i * 3;
    answers[at] = answer.code;
    answers[at + 1] = answer.first;
    answers[at + 2] = answer.second;
}

// Makes each call of a log and writes down its answer, and gives the record after them; where the answers have no room for all,
// nothing is done.
pub fn replay(
    session: Session,
    rows: &mut [u64],
    list: &mut [u64],
    background: &[u64],
    calls: &[u64],
    answers: &mut [u64],
) -> Result<Session, NoRoom>
    ensures { Replays session (mutable rows) (mutable list) (shared background) (shared calls) (mutable answers) result }
{
    let count = calls.len() / 4;
    if answers.len() / 3 < count {
        return Err(NoRoom);
    }
    let mut current = session;
    // By number: each answer is stored in the lent words, of which `as_chunks_mut` says nothing once its parts are written.
    for i in 0..count {
        let at = i * 4;
        let turn = logged_calls::replay_one(
            current,
            rows,
            list,
            background,
            calls[at],
            calls[at + 1],
            calls[at + 2],
            calls[at + 3],
        );
        write_answer(answers, i, turn.answer);
        current = turn.session;
    }
    Ok(current)
}
