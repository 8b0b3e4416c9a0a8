// Sets of attributes as words: the few functions that shift and mask.
#![tactic(auto)]

ghost use Rattle.std.specs.Prelude.{◌≡◌, ◌%◌, ◌^◌, ◌<◌, min};
ghost use Rattle.attribute_set.specs.Sets.{digit, full, without};
ghost use Rattle.attribute_set.specs.Lectic.{below, raise};
ghost use Rattle.attribute_set.specs.Smallest.{Smallest};

// The word that holds attribute j alone.
fn single(j: usize) -> u64
    requires { j < 64 }
    ensures { result ≡ 2 ^ j }
{
    1 << j
}

// The set of all n attributes; of the first 64 where n is more.
pub fn full_set(n: usize) -> u64
    ensures { result ≡ full (min n 64) }
{
    if 64 <= n {
        return 0xffff_ffff_ffff_ffff;
    }
    single(n) - 1
}

// 1 where attribute j is a member, else 0.
pub fn digit_of(set: u64, j: usize) -> u64
    ensures { result ≡ digit set j }
{
    if 64 <= j {
        return 0;
    }
    set >> j & 1
}

// The members below j.
pub fn below_of(set: u64, j: usize) -> u64
    ensures { result ≡ below set j }
{
    if 64 <= j {
        return set;
    }
    set & (single(j) - 1)
}

// Attribute j with the members below it; where a word has no attribute j, the members below it alone.
pub fn raised(set: u64, j: usize) -> u64
    ensures { result ≡ raise set j % 2 ^ 64 }
{
    if 64 <= j {
        return set;
    }
    single(j) | below_of(set, j)
}

// The members of a that b lacks.
pub fn difference(a: u64, b: u64) -> u64
    ensures { result ≡ without a b }
{
    a - (a & b)
}

// The smallest member alone; the empty set where there is none.
pub fn smallest_of(set: u64) -> u64
    ensures { Smallest set result }
{
    if set == 0 {
        return set;
    }
    set - (set & (set - 1))
}
