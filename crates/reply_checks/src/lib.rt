// All checks of a yes and of a test: 1 to 7, 8, and those behind it.
#![tactic(auto)]

ghost use Rattle.context.specs.Parts.{shared};
ghost use Rattle.std.specs.Prelude.{◌≡◌};
ghost use Rattle.context.specs.Objects.{object};
ghost use Rattle.machine.specs.Machine.{accept as accepting, test};
ghost use Rattle.machine.specs.Calls.{given};
ghost use Rattle.reply_checks.specs.Outcomes.{asking, standing_question};

use session::Refusal;
use standing::{Question, Standing};

// The standing question, to which a reply or a test is made; else what checks 1 to 8 refuse.
fn find_question(
    session: session::Session,
    rows: &[u64],
    list: &[u64],
    background: &[u64],
) -> Result<Question, Refusal>
    ensures { result ≡ standing_question (given session (shared rows) (shared list) (shared background)) }
{
    let standing = standing::find_standing(session, rows, list, background)?;
    let Standing::Open(question) = standing else {
        return Err(session::refuse(8, 0));
    };
    Ok(question)
}

// All checks of a yes: the standing question, or the refusal.
pub fn check_yes(
    session: session::Session,
    rows: &[u64],
    list: &[u64],
    background: &[u64],
) -> Result<Question, Refusal>
    ensures { result ≡ asking (given session (shared rows) (shared list) (shared background)) accepting }
{
    let question = find_question(session, rows, list, background)?;
    let Question {
        premise,
        conclusion,
    } = question;
    rule_tests::check_rule(session, rows, list, background, premise, conclusion)?;
    Ok(question)
}

// All checks of a test of an offered row: the standing question, which the row refutes, or the refusal.
pub fn check_test(
    session: session::Session,
    rows: &[u64],
    list: &[u64],
    background: &[u64],
    yes: u64,
    no: u64,
) -> Result<Question, Refusal>
    ensures { result ≡ asking (given session (shared rows) (shared list) (shared background)) (test (object yes no)) }
{
    let question = find_question(session, rows, list, background)?;
    let Question {
        premise,
        conclusion,
    } = question;
    offered_rows::check_tested_row(
        session.n,
        background,
        list,
        session.rules,
        yes,
        no,
        premise,
        conclusion,
    )?;
    Ok(question)
}
