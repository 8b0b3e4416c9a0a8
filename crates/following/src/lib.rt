// Whether an implication follows from those in force, and the closure under those in force and one more.
#![tactic(auto)]

ghost use Rattle.std.specs.Prelude.{◌≡◌};
ghost use Rattle.implication.specs.Closure.{implication, in_force, in_force_with, closure, follows};

// Whether the implication from premise to conclusion follows from those in force.
pub fn follows_from(
    background: &[u64],
    list: &[u64],
    count: usize,
    premise: u64,
    conclusion: u64,
) -> bool
    ensures { result ≡ follows (in_force background.now list.now count) (implication premise conclusion) }
{
    conclusion & closures::closure_of(background, list, count, premise) == conclusion
}

// The closure of a set under the implications in force and one more.
pub fn closure_with(
    background: &[u64],
    list: &[u64],
    count: usize,
    premise: u64,
    conclusion: u64,
    set: u64,
) -> u64
    ensures { result ≡ closure (in_force_with background.now list.now count premise conclusion) set }
{
    let mut s = set;
    loop {
        let t = closures::closure_of(background, list, count, s);
        if premise & t != premise {
            return t;
        }
        if conclusion & t == conclusion {
            return t;
        }
        s = t | conclusion;
    }
}
