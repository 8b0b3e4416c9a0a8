// A search and a fold over the pairs of a flat slice, as those of `word_pairs`, by a test and a change whose result the words do not fix:
// what they may give is a relation. They answer for any words, so that nothing is asked of a caller. How a closure is given: `tests.rt`.
#![tactic(auto)]

ghost use Rattle.std.specs.Prelude.{Bool, ℕ};
ghost use Rattle.word_pairs.specs.Walks.{FirstThat, FoldPairs};

// A test of two words: it gives a result that it may give of them (`may_give`), whichever they are.
pub trait RelatedTest {
    ghost may_give: { Self → ℕ → ℕ → Bool → Type 0 };

    fn test(&self, first: u64, second: u64) -> bool
        ensures { may_give self.now first second result };
}

// A change by two words: it makes of a third one that it may make (`may_make`), whichever the three are.
pub trait RelatedChange {
    ghost may_make: { Self → ℕ → ℕ → ℕ → ℕ → Type 0 };

    fn change(&self, first: u64, second: u64, made: u64) -> u64
        ensures { may_make self.now first second made result };
}

// The place of the first of the first count pairs that passed the test; count where none did.
pub fn first_that<T: RelatedTest>(words: &[u64], count: usize, by: &T) -> usize
    ensures { FirstThat (T.may_give by.now) count words.now result }
{
    let (pairs, _) = words.as_chunks::<2>();
    for (place, pair) in pairs[..count.min(pairs.len())].iter().enumerate() {
        if by.test(pair[0], pair[1]) {
            return place;
        }
    }
    count
}

// What the first count pairs, in order, made of a word.
pub fn fold_pairs<T: RelatedChange>(words: &[u64], count: usize, start: u64, by: &T) -> u64
    ensures { FoldPairs (T.may_make by.now) count words.now start result }
{
    let (pairs, _) = words.as_chunks::<2>();
    let mut made = start;
    for pair in &pairs[..count.min(pairs.len())] {
        made = by.change(pair[0], pair[1], made);
    }
    made
}

#[cfg(test)]
mod tests;
