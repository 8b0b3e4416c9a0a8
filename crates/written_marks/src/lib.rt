// Refutation by written marks, over objects in a flat slice, two words each: the yes marks, then the no marks. For interviews of complete
// tables, whose rows count as having and lacking just what is written.
#![tactic(auto)]

ghost use Rattle.std.specs.Prelude.{◌≡◌};
ghost use Rattle.implication.specs.Closure.{implication};
ghost use Rattle.context.specs.Objects.{object, objects_of, refutes_written, first_written};

use word_pairs::PairTest;

// Whether the object refutes the implication by its written marks.
fn refuted_by(yes: u64, no: u64, premise: u64, conclusion: u64) -> bool
    ensures { result ≡ refutes_written (object yes no) (implication premise conclusion) }
{
    premise & yes == premise && conclusion & no != 0
}

// What a search asks of each object: whether it refutes this implication.
#[derive(Clone, Copy)]
struct Refuting {
    premise: u64,
    conclusion: u64,
}

impl PairTest for Refuting {
    ghost passes = { λ s yes no. refutes_written (object yes no) (implication s.premise s.conclusion) };

    fn test(&self, yes: u64, no: u64) -> bool {
        refuted_by(yes, no, self.premise, self.conclusion)
    }
}

// The place of the first of the first count objects that refutes the implication by its written marks; count where none does.
pub fn first_refuting(rows: &[u64], count: usize, premise: u64, conclusion: u64) -> usize
    ensures { result ≡ first_written (objects_of count rows.now) (implication premise conclusion) }
{
    let by = Refuting {
        premise,
        conclusion,
    };
    word_pairs::first_that(rows, count, &by)
}
