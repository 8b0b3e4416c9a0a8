// Objects in a flat slice, two words each: whether one of them refutes an implication by the marks that the implications in force
// imply, and the first that does. In force are the whole background and the first so many of the list.
#![tactic(auto)]

ghost use Rattle.context.specs.Parts.{shared};
ghost use Rattle.std.specs.Prelude.{◌≡◌};
ghost use Rattle.implication.specs.Closure.{implication, in_force};
ghost use Rattle.context.specs.Objects.{object, refutes};
ghost use Rattle.context.specs.Parts.{lent_force, FirstRefuting};

use word_pairs::PairTest;

// Whether the object refutes the implication.
pub fn refuted_by(
    background: &[u64],
    list: &[u64],
    rules: usize,
    yes: u64,
    no: u64,
    premise: u64,
    conclusion: u64,
) -> bool
    ensures { result ≡ refutes (lent_force (shared background) (shared list) rules) (object yes no) (implication premise conclusion) }
{
    refuted_parts::refuted_part(background, list, rules, yes, no, premise, conclusion) != 0
}

// What a search asks of each object: whether it refutes this implication, where these are in force.
#[derive(Clone, Copy)]
struct Refuting<'a> {
    background: &'a [u64],
    list: &'a [u64],
    rules: usize,
    premise: u64,
    conclusion: u64,
}

impl PairTest for Refuting<'_> {
    ghost passes = { λ s yes no. refutes (in_force s.background.now s.list.now s.rules) (object yes no)
        (implication s.premise s.conclusion) };

    fn test(&self, yes: u64, no: u64) -> bool {
        refuted_by(
            self.background,
            self.list,
            self.rules,
            yes,
            no,
            self.premise,
            self.conclusion,
        )
    }
}

// The place of the first of the first count objects that refutes the implication; count where none does.
pub fn first_refuting(
    rows: &[u64],
    count: usize,
    background: &[u64],
    list: &[u64],
    rules: usize,
    premise: u64,
    conclusion: u64,
) -> usize
    ensures { FirstRefuting (shared background) (shared list) rules (shared rows) count (implication premise conclusion) result }
{
    let by = Refuting {
        background,
        list,
        rules,
        premise,
        conclusion,
    };
    word_pairs::first_that(rows, count, &by)
}
