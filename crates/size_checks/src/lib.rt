// Checks 1 to 3 of document 01, in its order: the number of attributes, the lent lengths, the rows and rules in use. The refusal of a
// check that fails.
#![tactic(auto)]

ghost use Rattle.context.specs.Parts.{shared};
ghost use Rattle.std.specs.Prelude.{◌≡◌};
ghost use Rattle.std.proofs.Math.Option.{some};
ghost use Rattle.session.specs.Refusals.{refusal};
ghost use Rattle.machine.specs.Calls.{given};
ghost use Rattle.size_checks.specs.Verdicts.{verdict_of, Sizes};

use session::Refusal;

// The verdict of a check that fails.
pub fn refused(number: u64, place: usize) -> Result<(), Refusal>
    ensures { verdict_of result ≡ some (refusal number place) }
{
    Err(session::refuse(number, place))
}

// Checks 1 to 3.
#[tactic(auto, unfolding(machine::specs::Checks::session_checks, machine::specs::Checks::first_failing))]
pub fn check_sizes(
    session: session::Session,
    rows: &[u64],
    list: &[u64],
    background: &[u64],
) -> Result<(), Refusal>
    ensures { Sizes (given session (shared rows) (shared list) (shared background)) result }
{
    if size_tests::bad_count(session.n) {
        return refused(1, 0);
    }
    if size_tests::bad_lengths(rows.len(), list.len(), background.len()) {
        return refused(2, 0);
    }
    if size_tests::bad_places(rows.len(), session.rows, list.len(), session.rules) {
        return refused(3, 0);
    }
    Ok(())
}
