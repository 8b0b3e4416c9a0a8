// The closure of a set under the implications in force.
#![tactic(auto)]

ghost use Rattle.std.specs.Prelude.{◌≡◌, ◌*◌, ◌≤◌, min, length};
ghost use Rattle.implication.specs.Closure.{implications_of, in_force, closure};
ghost use Rattle.implication.specs.Until.{PassUntil, CloseUntil};

// One pass over the first count implications, given up as soon as one brings a member of stop.
fn pass_until(rules: &[u64], count: usize, set: u64, stop: u64) -> u64
    requires { count * 2 ≤ length rules.now }
    ensures { PassUntil (implications_of count rules.now) set stop result }
{
    let (pairs, _) = rules.as_chunks::<2>();
    let mut s = set;
    for rule in &pairs[..count] {
        let premise = rule[0];
        if premise & s == premise {
            let t = s | rule[1];
            if t & stop != 0 {
                return t;
            }
            s = t;
        }
    }
    s
}

// The closure under the implications in force, the whole background and the first count of the list, given up as soon as it
// holds a member of stop: rounds over both, until one changes nothing.
pub fn close_until(background: &[u64], list: &[u64], count: usize, set: u64, stop: u64) -> u64
    ensures { CloseUntil (closure (in_force background.now list.now count) set) stop result }
{
    let b = background.len() / 2;
    let l = count.min(list.len() / 2);
    let mut s = set;
    loop {
        let first = pass_until(background, b, s, stop);
        if first & stop != 0 {
            return first;
        }
        let both = pass_until(list, l, first, stop);
        if both == s {
            return s;
        }
        if both & stop != 0 {
            return both;
        }
        s = both;
    }
}

// The closure of a set under the implications in force.
pub fn closure_of(background: &[u64], list: &[u64], count: usize, set: u64) -> u64
    ensures { result ≡ closure (in_force background.now list.now count) set }
{
    close_until(background, list, count, set, 0)
}
