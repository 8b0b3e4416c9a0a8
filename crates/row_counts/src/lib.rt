// Which attributes the rows with a premise nearly always have (02, request 3/13), below the checks: one pass over the rows, with a count
// for each attribute.
#![tactic(auto)]

ghost use Rattle.std.specs.Prelude.{◌≡◌, ◌*◌, ◌^◌, ◌≤◌, ◌<◌, length};
ghost use Rattle.session.specs.Limits.{most_attributes, most_objects};
ghost use Rattle.context.specs.Objects.{objects_of};
ghost use Rattle.attribute_set.specs.Passing.{passing};
ghost use Rattle.nearly_always.specs.Nearly.{nearly_always, most_percent, InRange, TestOf, Gives};
ghost use Rattle.nearly_always.specs.Nearly.Counting.{Zero, Small, Adds, CountsRow, Counted, exceeds_by, joined_by};

use nearly_always::PERCENT;
use session::Session;

// Adds a row to the counts of n attributes: one for each that it has.
fn count_attributes(counts: &mut [u64], n: usize, yes: u64)
    requires { (n ≤ length counts.old) × Small n counts.old }
    ensures { Adds n yes counts.old counts.new }
{
    let mut left = yes;
    for count in &mut counts[..n] {
        *count += left % 2;
        left /= 2;
    }
}

// Counts a row, where it has the premise; the answer is how many had it so far.
fn count_row(counts: &mut [u64], n: usize, total: u64, premise: u64, yes: u64) -> u64
    requires { (n ≤ length counts.old) × Small n counts.old × (total ≤ most_objects) }
    ensures { CountsRow n premise yes total counts.old result counts.new }
{
    if premise & yes != premise {
        return total;
    }
    count_attributes(counts, n, yes);
    total + 1
}

// Counts the rows that have the premise, and for each of n attributes those of them that have it.
fn count_rows(rows: &[u64], used: usize, premise: u64, counts: &mut [u64], n: usize) -> u64
    requires { (used ≤ most_objects) × (used * 2 ≤ length rows.now) × (n ≤ length counts.old) × Zero n counts.old }
    ensures { Counted n (objects_of used rows.now) premise result counts.new }
{
    let (pairs, _) = rows.as_chunks::<2>();
    let mut total = 0;
    for row in &pairs[..used] {
        total = count_row(counts, n, total, premise, row[0]);
    }
    total
}

// A set of attributes below p, with p where its count exceeds.
fn joined(set: u64, p: usize, counted: u64, total: u64, percent: u64) -> u64
    requires { (p < most_attributes) × (set < 2 ^ p) × (counted ≤ most_objects) × (total ≤ most_objects) × (percent ≤ most_percent) }
    ensures { result ≡ joined_by percent total counted p set }
{
    if percent * total < 100 * counted {
        return set_words::raised(set, p);
    }
    set
}

// The attributes below n whose counts exceed.
fn exceeding(counts: &[u64], n: usize, total: u64, percent: u64) -> u64
    requires n_le_most_attributes { (n ≤ most_attributes) × (n ≤ length counts.now) × Small n counts.now }
    requires total_le_most_objects { (total ≤ most_objects) × (percent ≤ most_percent) }
    ensures { result ≡ passing (exceeds_by percent total counts.now) n }
{
    let mut set = 0;
    for (p, counted) in counts[..n].iter().enumerate() {
        set = joined(set, p, *counted, total, percent);
    }
    set
}

// Whether the numbers are as checks 1 to 3 and 31 leave them.
pub fn in_range(n: usize, used: usize, words: usize, percent: u64) -> bool
    ensures { TestOf result (InRange n used words percent) }
{
    n <= Session::ATTRIBUTES && used <= Session::ROWS && used <= words / 2 && percent <= PERCENT
}

// The attributes that more than so many per cent of the rows in use with the premise have, but for the premise.
fn list_in_range(n: usize, used: usize, rows: &[u64], premise: u64, percent: u64) -> u64
    requires { InRange n used (length rows.now) percent }
    ensures { result ≡ nearly_always n percent (objects_of used rows.now) premise }
{
    let mut counts = [0u64; Session::ATTRIBUTES];
    let total = count_rows(rows, used, premise, &mut counts, n);
    let set = exceeding(&counts, n, total, percent);
    set_words::difference(set, premise)
}

// The same for any numbers; the empty set where they are out of range.
pub fn nearly_always(n: usize, used: usize, rows: &[u64], premise: u64, percent: u64) -> u64
    ensures { Gives n used rows.now premise percent result }
{
    if !in_range(n, used, rows.len(), percent) {
        return 0;
    }
    list_in_range(n, used, rows, premise, percent)
}
