// How the current set stands, where checks 1 to 7 pass.
#![tactic(auto)]

ghost use Rattle.context.specs.Parts.{shared};
ghost use Rattle.std.specs.Prelude.{◌≡◌};
ghost use Rattle.machine.specs.Calls.{given};
ghost use Rattle.standing.specs.Standings.{found};

// The rule asked about, as premise and conclusion.
#[derive(Clone, Copy)]
pub struct Question {
    pub premise: u64,
    pub conclusion: u64,
}

// How the current set stands: it is M; its reach is itself; or a question stands.
#[derive(Clone, Copy)]
pub enum Standing {
    Full,
    Tight,
    Open(Question),
}

// What checks 1 to 7 refuse, or how the current set stands.
pub fn find_standing(
    session: session::Session,
    rows: &[u64],
    list: &[u64],
    background: &[u64],
) -> Result<Standing, session::Refusal>
    ensures { result ≡ found (given session (shared rows) (shared list) (shared background)) }
{
    let n = session.n;
    let rules = session.rules;
    let current = session.current;
    session_checks::check_session(session, rows, list, background, 0, 0)?;
    if current == set_words::full_set(n) {
        return Ok(Standing::Full);
    }
    let x = row_reach::reach_of(n, rows, session.rows, background, list, rules, current);
    if x == current {
        return Ok(Standing::Tight);
    }
    Ok(Standing::Open(Question {
        premise: current,
        conclusion: set_words::difference(x, current),
    }))
}
