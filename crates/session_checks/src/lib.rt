// Checks 1 to 7 of document 01, in its order, on the session record and the lent words (row words, list words, background words).
#![tactic(auto)]

ghost use Rattle.context.specs.Parts.{shared};
ghost use Rattle.implication.specs.Closure.{implication};
ghost use Rattle.machine.specs.Calls.{given};
ghost use Rattle.session_checks.specs.Checked.{Closed, Checked};

// Check 7: the current set is its own closure under the rules in force.
#[tactic(auto, unfolding(machine::specs::Checks::first_failing))]
fn check_closed(
    background: &[u64],
    list: &[u64],
    rules: usize,
    current: u64,
) -> Result<(), session::Refusal>
    ensures { Closed (shared background) (shared list) rules current result }
{
    if closures::closure_of(background, list, rules, current) != current {
        return size_checks::refused(7, 0);
    }
    Ok(())
}

// Checks 1 to 7, with a rule asked about; the empty one, {} to {}, where none is.
pub fn check_session(
    session: session::Session,
    rows: &[u64],
    list: &[u64],
    background: &[u64],
    premise: u64,
    conclusion: u64,
) -> Result<(), session::Refusal>
    ensures { Checked (given session (shared rows) (shared list) (shared background)) (implication premise conclusion) result }
{
    size_checks::check_sizes(session, rows, list, background)?;
    if outside_check::check_outside(session, rows, list, background, premise, conclusion) {
        return size_checks::refused(4, 0);
    }
    let marked = mark_checks::check_marks(session, rows, list, background);
    let closed = check_closed(background, list, session.rules, session.current);
    marked.and(closed)
}
