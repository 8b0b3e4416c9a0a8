// The reach by written marks, over objects in a flat slice, two words each: the yes marks, then the no marks. For interviews of complete
// tables, whose rows count as having and lacking just what is written.
#![tactic(auto)]

ghost use Rattle.std.specs.Prelude.{◌≡◌, min};
ghost use Rattle.context.specs.Objects.{object, objects_of};
ghost use Rattle.written_marks.specs.Written.{cut_written, reach_written};

use word_pairs::PairChange;

// What one object leaves of x: what it does not mark no, where it marks the set yes.
fn cut_by(yes: u64, no: u64, set: u64, x: u64) -> u64
    ensures { result ≡ cut_written set (object yes no) x }
{
    if set & yes == set {
        set_words::difference(x, no)
    } else {
        x
    }
}

// What a fold does at each object: it takes out what the object marks no, where it marks this set yes.
#[derive(Clone, Copy)]
struct Cutting {
    set: u64,
}

impl PairChange for Cutting {
    ghost changed = { λ s yes no x. cut_written s.set (object yes no) x };

    fn change(&self, yes: u64, no: u64, left: u64) -> u64 {
        cut_by(yes, no, self.set, left)
    }
}

// The reach by written marks of a set among the first n attributes (64 at the most), over the first count objects.
pub fn reach_of(n: usize, rows: &[u64], count: usize, set: u64) -> u64
    ensures { result ≡ reach_written (min n 64) (objects_of count rows.now) set }
{
    word_pairs::fold_pairs(rows, count, set_words::full_set(n), &Cutting { set })
}
