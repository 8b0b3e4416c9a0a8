// What of an implication an object refutes by the marks that the implications in force imply. An object is two words: the yes marks, then
// the no marks. In force are the whole background and the first so many of the list.
#![tactic(auto)]

ghost use Rattle.context.specs.Parts.{shared};
ghost use Rattle.std.specs.Prelude.{◌≡◌};
ghost use Rattle.std.specs.Int.Bits.{bit_and};
ghost use Rattle.implication.specs.Closure.{implication, in_force, closure};
ghost use Rattle.context.specs.Objects.{object, lacks};
ghost use Rattle.context.specs.Parts.{lent_force, spared, refuted_part};

// The closure of the yes marks with an attribute, where it does not meet the no marks; else nothing.
fn spared_with(
    background: &[u64],
    list: &[u64],
    rules: usize,
    yes: u64,
    no: u64,
    attribute: u64,
) -> u64
    ensures { result ≡ spared (lent_force (shared background) (shared list) rules) (object yes no) attribute }
{
    let found = closures::close_until(background, list, rules, yes | attribute, no);
    if found & no != 0 {
        return 0;
    }
    found
}

// Of some attributes, those that an object which does not contradict lacks. What is marked no is lacked, what it has is not; of the rest
// one after the other is added to the yes marks, and what is spared with it is not lacked either.
fn lacked_among(
    background: &[u64],
    list: &[u64],
    rules: usize,
    yes: u64,
    no: u64,
    has: u64,
    among: u64,
) -> u64
    requires has_value { has ≡ closure (in_force background.now list.now rules) yes }
    requires no_value { bit_and has no ≡ 0 }
    ensures { result ≡ bit_and among (lacks (lent_force (shared background) (shared list) rules) (object yes no)) }
{
    let mut lacked = among & no;
    let mut left = set_words::difference(set_words::difference(among, no), has);
    // no list to go over: a turn takes all that it spares out of what is left
    while left != 0 {
        let attribute = set_words::smallest_of(left);
        let spared = spared_with(background, list, rules, yes, no, attribute);
        lacked |= set_words::difference(attribute, spared);
        left = set_words::difference(left, attribute | spared);
    }
    lacked
}

// The part of the conclusion that an object refutes: what it lacks of it, where it has the premise; else nothing.
pub fn refuted_part(
    background: &[u64],
    list: &[u64],
    rules: usize,
    yes: u64,
    no: u64,
    premise: u64,
    conclusion: u64,
) -> u64
    ensures { result ≡ refuted_part (lent_force (shared background) (shared list) rules) (object yes no) (implication premise conclusion) }
{
    if no == 0 {
        return 0;
    }
    let has = closures::closure_of(background, list, rules, yes);
    if premise & has != premise {
        return 0;
    }
    if has & no != 0 {
        return conclusion;
    }
    lacked_among(background, list, rules, yes, no, has, conclusion)
}
