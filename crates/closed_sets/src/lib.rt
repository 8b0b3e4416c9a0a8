// The next closed set.
#![tactic(auto)]

ghost use Rattle.std.specs.Prelude.{◌≡◌, min};
ghost use Rattle.implication.specs.Closure.{in_force};
ghost use Rattle.next_set.specs.Next.{next};

// The next closed set after set among the first n attributes (of 64 at the most); set itself where there is none.
// Downwards from the last attribute: a candidate is given up as soon as it gains an attribute below its own.
pub fn next_of(background: &[u64], list: &[u64], count: usize, n: usize, set: u64) -> u64
    ensures { result ≡ next (in_force background.now list.now count) (min n 64) set }
{
    for j in (0..n.min(64)).rev() {
        if set_words::digit_of(set, j) == 0 {
            let stop = set_words::difference(set_words::full_set(j), set);
            let raised = set_words::raised(set, j);
            let found = closures::close_until(background, list, count, raised, stop);
            if found & stop == 0 {
                return found;
            }
        }
    }
    set
}
