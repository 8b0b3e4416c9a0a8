// The reach of a set over objects in a flat slice, two words each: the yes marks, then the no marks. Objects are read by the marks that
// the implications in force imply: the whole background and the first so many of the list.
#![tactic(auto)]

ghost use Rattle.context.specs.Parts.{shared};
ghost use Rattle.std.specs.Prelude.{◌≡◌, min};
ghost use Rattle.implication.specs.Closure.{in_force};
ghost use Rattle.context.specs.Objects.{object};
ghost use Rattle.context.specs.Parts.{lent_force};
ghost use Rattle.reach.specs.Reach.{cut};
ghost use Rattle.reach.specs.Lent.{ReachOf};

use word_pairs::PairChange;

// What one object leaves of x: what it does not lack, where it has the set.
fn cut_by(
    background: &[u64],
    list: &[u64],
    rules: usize,
    yes: u64,
    no: u64,
    set: u64,
    x: u64,
) -> u64
    ensures { result ≡ cut (lent_force (shared background) (shared list) rules) set (object yes no) x }
{
    set_words::difference(
        x,
        refuted_parts::refuted_part(background, list, rules, yes, no, set, x),
    )
}

// What a fold does at each object: it takes out what the object lacks, where it has this set.
#[derive(Clone, Copy)]
struct Cutting<'a> {
    background: &'a [u64],
    list: &'a [u64],
    rules: usize,
    set: u64,
}

impl PairChange for Cutting<'_> {
    ghost changed = { λ s yes no x. cut (in_force s.background.now s.list.now s.rules) s.set (object yes no) x };

    fn change(&self, yes: u64, no: u64, left: u64) -> u64 {
        cut_by(
            self.background,
            self.list,
            self.rules,
            yes,
            no,
            self.set,
            left,
        )
    }
}

// The reach of a set among the first n attributes (64 at the most), over the first count objects.
pub fn reach_of(
    n: usize,
    rows: &[u64],
    count: usize,
    background: &[u64],
    list: &[u64],
    rules: usize,
    set: u64,
) -> u64
    ensures { ReachOf (shared background) (shared list) rules (min n 64) (shared rows) count set result }
{
    let by = Cutting {
        background,
        list,
        rules,
        set,
    };
    word_pairs::fold_pairs(rows, count, set_words::full_set(n), &by)
}
