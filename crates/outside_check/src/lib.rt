// Check 4 of document 01: nothing in the session record and the lent words, nor the rule asked about, has an attribute outside M.
#![tactic(auto)]

ghost use Rattle.context.specs.Parts.{shared};
ghost use Rattle.std.specs.Prelude.{◌≡◌, Bool, ◌*◌, ◌≤◌, length};
ghost use Rattle.implication.specs.Pairs.{pairs};
ghost use Rattle.implication.specs.Closure.{implication};
ghost use Rattle.context.specs.Places.{anywhere};
ghost use Rattle.machine.specs.Checks.{strange};
ghost use Rattle.machine.specs.Calls.{given};
ghost use Rattle.outside_check.specs.Outside.{Outside};

use word_pairs::PairTest;

// Either word has an attribute outside m.
pub fn strange_pair(a: u64, b: u64, m: u64) -> bool
    ensures { result ≡ strange m a b }
{
    a & m != a || b & m != b
}

// What a search asks of each pair: whether either word has an attribute outside m.
#[derive(Clone, Copy)]
struct OutsideOf {
    m: u64,
}

impl PairTest for OutsideOf {
    ghost passes = { λ s. strange s.m };

    fn test(&self, first: u64, second: u64) -> bool {
        strange_pair(first, second, self.m)
    }
}

// One of the first count pairs of words has an attribute outside m.
fn strange_among(words: &[u64], count: usize, m: u64) -> bool
    requires { count * 2 ≤ length words.now }
    ensures { result ≡ anywhere (λ (b : Bool). b) (pairs (strange m) count words.now) }
{
    word_pairs::first_that(words, count, &OutsideOf { m }) < count
}

// Check 4: a row in use, a rule in force, the rule asked about or the current set has an attribute outside M.
pub fn check_outside(
    session: session::Session,
    rows: &[u64],
    list: &[u64],
    background: &[u64],
    premise: u64,
    conclusion: u64,
) -> bool
    ensures { Outside (given session (shared rows) (shared list) (shared background)) (implication premise conclusion) result }
{
    let used = session.rows.min(rows.len() / 2);
    let rules = session.rules.min(list.len() / 2);
    let current = session.current;
    let m = set_words::full_set(session.n);
    strange_among(rows, used, m)
        || strange_among(background, background.len() / 2, m)
        || strange_among(list, rules, m)
        || strange_pair(premise, conclusion, m)
        || current & m != current
}
