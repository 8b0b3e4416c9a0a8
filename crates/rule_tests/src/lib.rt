// Checks 11 and 12 of document 01, in its order, of a yes to a question that stands.
#![tactic(auto)]

ghost use Rattle.context.specs.Parts.{shared};
ghost use Rattle.implication.specs.Closure.{implication};
ghost use Rattle.machine.specs.Calls.{given};
ghost use Rattle.rule_tests.specs.Tests.{RuleTested};

// Checks 11 and 12 of a yes to the question with this premise and conclusion.
pub fn check_rule(
    session: session::Session,
    rows: &[u64],
    list: &[u64],
    background: &[u64],
    premise: u64,
    conclusion: u64,
) -> Result<(), session::Refusal>
    ensures { RuleTested (given session (shared rows) (shared list) (shared background)) (implication premise conclusion) result }
{
    let used = session.rows;
    let rules = session.rules;
    let row = contradictions::first_contradiction(
        rows, used, list, rules, background, premise, conclusion,
    );
    if row < used {
        return size_checks::refused(11, row);
    }
    if list.len() / 2 <= rules {
        return size_checks::refused(12, 0);
    }
    Ok(())
}
