// The first row that contradicts the implications in force with one more.
#![tactic(auto)]

ghost use Rattle.context.specs.Parts.{shared};
ghost use Rattle.std.specs.Prelude.{◌≡◌};
ghost use Rattle.implication.specs.Closure.{in_force_with};
ghost use Rattle.context.specs.Places.{lowest};
ghost use Rattle.context.specs.Objects.{object, objects_of, contradicts};
ghost use Rattle.contradictions.specs.Contradictions.{with_rule};

use word_pairs::PairTest;

// Whether a row contradicts the implications in force with one more.
fn contradiction(
    list: &[u64],
    rules: usize,
    background: &[u64],
    premise: u64,
    conclusion: u64,
    yes: u64,
    no: u64,
) -> bool
    ensures { result ≡ contradicts (with_rule (shared background) (shared list) rules premise conclusion) (object yes no) }
{
    following::closure_with(background, list, rules, premise, conclusion, yes) & no != 0
}

// What a search asks of each row: whether it contradicts the implications in force with this one more.
#[derive(Clone, Copy)]
struct Contradicting<'a> {
    list: &'a [u64],
    rules: usize,
    background: &'a [u64],
    premise: u64,
    conclusion: u64,
}

impl PairTest for Contradicting<'_> {
    ghost passes = { λ s yes no. contradicts (in_force_with s.background.now s.list.now s.rules s.premise s.conclusion) (object yes no) };

    fn test(&self, yes: u64, no: u64) -> bool {
        contradiction(
            self.list,
            self.rules,
            self.background,
            self.premise,
            self.conclusion,
            yes,
            no,
        )
    }
}

// The first of count rows that contradicts the implications in force with one more; count where none does.
pub fn first_contradiction(
    rows: &[u64],
    count: usize,
    list: &[u64],
    rules: usize,
    background: &[u64],
    premise: u64,
    conclusion: u64,
) -> usize
    ensures { result ≡ lowest (contradicts (with_rule (shared background) (shared list) rules premise conclusion))
        (objects_of count rows.now) }
{
    let by = Contradicting {
        list,
        rules,
        background,
        premise,
        conclusion,
    };
    word_pairs::first_that(rows, count, &by)
}
