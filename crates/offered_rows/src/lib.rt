// The checks of an offered row, in document 01's order: 9 and 10 of a test to a question that stands, 9 and 11 of a filing; 9, 33 and 11 of
// marks offered for a row.
#![tactic(auto, unfolding(machine::specs::Checks::first_failing))]

ghost use Rattle.context.specs.Parts.{shared};
ghost use Rattle.implication.specs.Closure.{implication};
ghost use Rattle.context.specs.Objects.{object, contradicts};
ghost use Rattle.context.specs.Filling.{reverses};
ghost use Rattle.context.specs.Parts.{lent_force};
ghost use Rattle.offered_rows.specs.Tests.{RowTested, RowFits, MarksFit};

// Checks 9 and 10 of a row offered to the question with this premise and conclusion.
pub fn check_tested_row(
    n: usize,
    background: &[u64],
    list: &[u64],
    rules: usize,
    yes: u64,
    no: u64,
    premise: u64,
    conclusion: u64,
) -> Result<(), session::Refusal>
    ensures { RowTested n (lent_force (shared background) (shared list) rules) (implication premise conclusion) (object yes no) result }
{
    if row_tests::bad_row(n, yes, no) {
        return size_checks::refused(9, 0);
    }
    if !refuting_rows::refuted_by(background, list, rules, yes, no, premise, conclusion) {
        return size_checks::refused(10, 0);
    }
    Ok(())
}

// Checks 9 and 11 of a row offered to be filed.
pub fn check_filed_row(
    n: usize,
    background: &[u64],
    list: &[u64],
    rules: usize,
    yes: u64,
    no: u64,
) -> Result<(), session::Refusal>
    ensures { RowFits n (lent_force (shared background) (shared list) rules) (object yes no) result }
{
    if row_tests::bad_row(n, yes, no) {
        return size_checks::refused(9, 0);
    }
    if row_tests::row_contradicts(background, list, rules, yes, no) {
        return size_checks::refused(11, 0);
    }
    Ok(())
}

// Checks 9, 33 and 11 of marks offered for a row with known marks.
pub fn check_added_marks(
    n: usize,
    background: &[u64],
    list: &[u64],
    rules: usize,
    known_yes: u64,
    known_no: u64,
    yes: u64,
    no: u64,
) -> Result<(), session::Refusal>
    ensures { MarksFit n (lent_force (shared background) (shared list) rules) (object known_yes known_no) (object yes no) result }
{
    if row_tests::bad_row(n, yes, no) {
        return size_checks::refused(9, 0);
    }
    if row_tests::reverses_mark(known_yes, known_no, yes, no) {
        return size_checks::refused(33, 0);
    }
    if row_tests::row_contradicts(background, list, rules, known_yes | yes, known_no | no) {
        return size_checks::refused(11, 0);
    }
    Ok(())
}
