// The opening of a session, by value: it takes the lent words (row words, list words, background words), makes its checks, and gives the
// record.
#![tactic(auto)]

ghost use Rattle.context.specs.Parts.{shared};
ghost use Rattle.session_opening.specs.Opening.{Opens};

use session::{Refusal, Session};

// The opening: so many rows are in use, the list is empty, and the current set is the closure of the empty set.
pub fn open(
    n: usize,
    used: usize,
    rows: &[u64],
    list: &[u64],
    background: &[u64],
) -> Result<Session, Refusal>
    ensures { Opens n used (shared rows) (shared list) (shared background) result }
{
    let session = Session {
        n,
        rows: used,
        rules: 0,
        current: closures::closure_of(background, list, 0, 0),
    };
    session_checks::check_session(session, rows, list, background, 0, 0)?;
    Ok(session)
}
