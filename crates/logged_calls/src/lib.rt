// One call of a log, by its kind and three arguments, with its answer in three words.
#![tactic(auto)]

ghost use Rattle.std.specs.Prelude.{◌≡◌, ◌<◌, IfOk, OnErr};
ghost use Rattle.context.specs.Parts.{mutable, shared};
ghost use Rattle.logged_calls.specs.Kinds.{number_of, call_of, ReplaysOne};

use answer_words::{Answer, in_words};
use session::{Session, Turn};

// The kinds of calls, in the order of their numbers in a log, from 0.
#[derive(Clone, Copy, PartialEq, Eq)]
pub enum CallKind {
    Step,
    Yes,
    No,
    Follows,
    Refuted,
    Test,
    File,
    Fill,
}

// A number that no kind has.
#[derive(Clone, Copy)]
pub struct UnknownKind;

impl TryFrom<u64> for CallKind {
    type Error = UnknownKind;

    ghost try_from_gives = { λ number kind. IfOk kind (λ k. number ≡ number_of k) × OnErr kind (7 < number) };

    fn try_from(number: u64) -> Result<CallKind, UnknownKind> {
        match number {
            0 => Ok(CallKind::Step),
            1 => Ok(CallKind::Yes),
            2 => Ok(CallKind::No),
            3 => Ok(CallKind::Follows),
            4 => Ok(CallKind::Refuted),
            5 => Ok(CallKind::Test),
            6 => Ok(CallKind::File),
            7 => Ok(CallKind::Fill),
            _ => Err(UnknownKind),
        }
    }
}

// One call of a log, made through the call of its kind.
pub fn replay_one(
    session: Session,
    rows: &mut [u64],
    list: &mut [u64],
    background: &[u64],
    kind: u64,
    a: u64,
    b: u64,
    c: u64,
) -> Turn<Answer>
    ensures { ReplaysOne (call_of kind a b c) session (mutable rows) (mutable list) (shared background) result.answer result.session }
{
    let Ok(kind) = CallKind::try_from(kind) else {
        return Turn::kept(session, in_words(Answer::UNKNOWN, 0, 0));
    };
    match kind {
        CallKind::Step => coded_calls::step(session, rows, list, background),
        CallKind::Yes => coded_calls::accept(session, rows, list, background),
        CallKind::No => coded_calls::reject(session, rows, list, background, a, b),
        CallKind::Follows => {
            Turn::kept(
                session,
                coded_queries::follows(session, rows, list, background, a, b),
            )
        }
        CallKind::Refuted => {
            Turn::kept(
                session,
                coded_queries::refuted(session, rows, list, background, a, b),
            )
        }
        CallKind::Test => {
            Turn::kept(
                session,
                coded_queries::test_row(session, rows, list, background, a, b),
            )
        }
        CallKind::File => coded_calls::file_row(session, rows, list, background, a, b),
        CallKind::Fill => Turn::kept(
            session,
            coded_calls::fill_row(session, rows, list, background, a as usize, b, c),
        ),
    }
}
