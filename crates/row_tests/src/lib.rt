// The tests behind the checks of an offered row: of its marks alone (9), against known marks (33), and against the rules in force (11).
#![tactic(auto)]

ghost use Rattle.context.specs.Parts.{shared};
ghost use Rattle.std.specs.Prelude.{◌≡◌};
ghost use Rattle.context.specs.Objects.{object, contradicts};
ghost use Rattle.context.specs.Filling.{reverses};
ghost use Rattle.context.specs.Parts.{lent_force};
ghost use Rattle.machine.specs.Checks.{bad_row};

// The tests of check 9: a row with an attribute outside M, or with one marked both ways.
pub fn bad_row(n: usize, yes: u64, no: u64) -> bool
    ensures { result ≡ bad_row n (object yes no) }
{
    outside_check::strange_pair(yes, no, set_words::full_set(n)) || yes & no != 0
}

// The test of check 33: a yes mark would become a no, or a no a yes.
#[tactic(auto, unfolding(context::specs::Filling::reverses, attribute_set::specs::Sets::meets))]
pub fn reverses_mark(known_yes: u64, known_no: u64, yes: u64, no: u64) -> bool
    ensures { result ≡ reverses (object known_yes known_no) (object yes no) }
{
    known_yes & no != 0 || known_no & yes != 0
}

// The test of check 11: a row that contradicts the implications in force.
#[tactic(auto, unfolding(context::specs::Objects::contradicts, attribute_set::specs::Sets::meets))]
pub fn row_contradicts(background: &[u64], list: &[u64], rules: usize, yes: u64, no: u64) -> bool
    ensures { result ≡ contradicts (lent_force (shared background) (shared list) rules) (object yes no) }
{
    closures::closure_of(background, list, rules, yes) & no != 0
}
