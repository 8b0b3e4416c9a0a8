// The yes to the standing question of a session, by value. It takes the record and the lent words (row words, list words, background
// words), makes its checks, writes the rule, and gives the record back.
#![tactic(auto)]

ghost use Rattle.context.specs.Parts.{mutable, shared};
ghost use Rattle.machine.specs.Machine.{accept as accepting};
ghost use Rattle.machine.specs.Calls.{Turns};
ghost use Rattle.session_replies.specs.Answers.{reply_answer};

use session::{Refusal, Session, Turn};

// 01's yes: the standing question becomes the next rule of the list, and the current set the next closed set.
#[tactic(auto, using(crate::proofs::Yes::Laws::room))]
pub fn accept(
    session: Session,
    rows: &[u64],
    list: &mut [u64],
    background: &[u64],
) -> Turn<Result<(), Refusal>>
    ensures { Turns accepting session (shared rows) (mutable list) (shared background)
        (reply_answer result.answer) result.session result.changed }
{
    let rules = session.rules;
    let question = match reply_checks::check_yes(session, rows, list, background) {
        Ok(question) => question,
        Err(refusal) => return session_replies::refused(session, refusal),
    };
    list[rules * 2] = question.premise;
    list[rules * 2 + 1] = question.conclusion;
    let next = closed_sets::next_of(background, list, rules + 1, session.n, session.current);
    Turn::changed(
        Session {
            rules: rules + 1,
            current: next,
            ..session
        },
        Ok(()),
    )
}
