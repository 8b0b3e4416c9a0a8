// Rows and rules lie in a flat slice, two words each: a search and a fold over these pairs, which look at those alone that the slice has
// whole. What is done with a pair is a method of a type of the caller's, which has what it needs beside the two words.
#![tactic(auto)]

ghost use Rattle.std.specs.Prelude.{◌≡◌, Bool, ℕ};
ghost use Rattle.word_pairs.specs.Walks.{FirstThat, FoldPairs};

// A test of two words: it answers `passes` of the two, whichever they are, so that a search asks nothing of its caller.
pub trait PairTest {
    ghost passes: { Self → ℕ → ℕ → Bool };

    fn test(&self, first: u64, second: u64) -> bool
        ensures { result ≡ passes self.now first second };
}

// What two words make of a third: `changed` of the three, whichever they are.
pub trait PairChange {
    ghost changed: { Self → ℕ → ℕ → ℕ → ℕ };

    fn change(&self, first: u64, second: u64, made: u64) -> u64
        ensures { result ≡ changed self.now first second made };
}

// The place of the first of the first count pairs that passes the test; count where none does.
pub fn first_that<T: PairTest>(words: &[u64], count: usize, by: &T) -> usize
    ensures { FirstThat (λ a b r. r ≡ T.passes by.now a b) count words.now result }
{
    let (pairs, _) = words.as_chunks::<2>();
    let whole = &pairs[..count.min(pairs.len())];
    match whole.iter().position(|pair| by.test(pair[0], pair[1])) {
        Some(place) => place,
        None => count,
    }
}

// What the first count pairs, in order, make of a word.
pub fn fold_pairs<T: PairChange>(words: &[u64], count: usize, start: u64, by: &T) -> u64
    ensures { FoldPairs (λ a b x y. y ≡ T.changed by.now a b x) count words.now start result }
{
    let (pairs, _) = words.as_chunks::<2>();
    let mut made = start;
    for pair in &pairs[..count.min(pairs.len())] {
        made = by.change(pair[0], pair[1], made);
    }
    made
}
