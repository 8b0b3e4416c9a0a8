// The search and the fold by closures, and by a test and a change whose result the words do not fix.
//
// A closure may be called with any words: that is an invariant of the type that holds it. An invariant can cite a member of a trait and
// not what the bound of a closure says, so the closure stands behind a trait. `first_that` and `fold_pairs` below take a closure, and
// promise of the result what the closure promises.
ghost use Rattle.std.specs.Prelude.{Bool, ℕ, ◌≡◌};
ghost use Rattle.word_pairs.specs.Walks.{FirstThat, FoldPairs};

use super::{RelatedChange, RelatedTest};
use std::cell::Cell;
use std::marker::Model;

// A test that may be called where `callable` holds.
trait CalledTest {
    ghost callable: { Self → Type 0 };

    ghost may_give: { Self → ℕ → ℕ → Bool → Type 0 };

    fn call(&self, first: u64, second: u64) -> bool
        requires { callable self.now }
        ensures { may_give self.now first second result };
}

// A change that may be called where `callable` holds.
trait CalledChange {
    ghost callable: { Self → Type 0 };

    ghost may_make: { Self → ℕ → ℕ → ℕ → ℕ → Type 0 };

    fn call(&self, first: u64, second: u64, made: u64) -> u64
        requires { callable self.now }
        ensures { may_make self.now first second made result };
}

// A closure.
#[derive(Drop)]
struct Closure<F> {
    closure: F,
}

impl<F: Fn(u64, u64) -> bool> CalledTest for Closure<F> {
    ghost callable = { λ it. F.IsAlwaysCallable it.closure };

    ghost may_give = { λ it. F.post it.closure };

    fn call(&self, first: u64, second: u64) -> bool {
        (self.closure)(first, second)
    }
}

impl<F: Fn(u64, u64, u64) -> u64> CalledChange for Closure<F> {
    ghost callable = { λ it. F.IsAlwaysCallable it.closure };

    ghost may_make = { λ it. F.post it.closure };

    fn call(&self, first: u64, second: u64, made: u64) -> u64 {
        (self.closure)(first, second, made)
    }
}

// A test that may be called with any two words.
#[derive(Drop)]
struct AnyTest<T: CalledTest> {
    test: T,
}

impl<T: CalledTest> Model for AnyTest<T> {
    ghost Value = { T };

    ghost view = { λ it. it.test };

    ghost invariant = { λ it. T.callable it.test };
}

impl<T: CalledTest> RelatedTest for AnyTest<T> {
    ghost may_give = { λ it. T.may_give it };

    fn test(&self, first: u64, second: u64) -> bool {
        self.test.call(first, second)
    }
}

// A change that may be called with any three words.
#[derive(Drop)]
struct AnyChange<T: CalledChange> {
    change: T,
}

impl<T: CalledChange> Model for AnyChange<T> {
    ghost Value = { T };

    ghost view = { λ it. it.change };

    ghost invariant = { λ it. T.callable it.change };
}

impl<T: CalledChange> RelatedChange for AnyChange<T> {
    ghost may_make = { λ it. T.may_make it };

    fn change(&self, first: u64, second: u64, made: u64) -> u64 {
        self.change.call(first, second, made)
    }
}

fn first_called<T: CalledTest + Drop>(words: &[u64], count: usize, test: T) -> usize
    requires { T.callable test }
    ensures { FirstThat (T.may_give test) count words.now result }
{
    super::first_that(words, count, &AnyTest { test })
}

fn fold_called<T: CalledChange + Drop>(words: &[u64], count: usize, start: u64, change: T) -> u64
    requires { T.callable change }
    ensures { FoldPairs (T.may_make change) count words.now start result }
{
    super::fold_pairs(words, count, start, &AnyChange { change })
}

// The search by a closure.
fn first_that<F: Fn(u64, u64) -> bool>(words: &[u64], count: usize, test: F) -> usize
    requires { F.IsAlwaysCallable test }
    ensures { FirstThat (F.post test) count words.now result }
{
    first_called(words, count, Closure { closure: test })
}

// The fold by a closure.
fn fold_pairs<F: Fn(u64, u64, u64) -> u64>(
    words: &[u64],
    count: usize,
    start: u64,
    change: F,
) -> u64
    requires { F.IsAlwaysCallable change }
    ensures { FoldPairs (F.post change) count words.now start result }
{
    fold_called(words, count, start, Closure { closure: change })
}

// A test that passes at every second call: of any words it may give either result.
#[derive(Drop)]
struct EverySecond {
    passed: Cell<bool>,
}

impl RelatedTest for EverySecond {
    ghost may_give = { λ it first second r. r ≡ r };

    fn test(&self, _first: u64, _second: u64) -> bool {
        let passes = !self.passed.get();
        self.passed.set(passes);
        passes
    }
}

// A change that appends the number of its call: of any words it may make any.
#[derive(Drop)]
struct Numbered {
    calls: Cell<u64>,
}

impl RelatedChange for Numbered {
    ghost may_make = { λ it first second made r. r ≡ r };

    fn change(&self, _first: u64, _second: u64, made: u64) -> u64 {
        let call = self.calls.get().wrapping_add(1);
        self.calls.set(call);
        made.wrapping_mul(10).wrapping_add(call)
    }
}

// Three pairs and a half.
const WORDS: [u64; 7] = [5, 1, 7, 2, 7, 3, 9];

#[test]
fn searches_by_a_closure(rt: HostRuntime) {
    for (least, count, found) in [
        (1, 3, 1),
        (2, 3, 2),
        (2, 2, 2),
        (3, 3, 3),
        (2, 10, 2),
        (3, 10, 10),
        (1, 0, 0),
    ] {
        let place = first_that(&WORDS, count, |first, second| first == 7 && second > least);
        assert_eq!(rt; place, found, "above {least} among {count}");
    }
    assert_eq!(rt;
        first_that(&WORDS, 4, |first, _second| first == 9),
        4,
        "a half is no pair"
    );
}

#[test]
fn searches_by_what_its_words_do_not_fix(rt: HostRuntime) {
    let by = EverySecond {
        passed: Cell::new(true),
    };
    assert_eq!(rt; super::first_that(&WORDS, 3, &by), 1);
    assert_eq!(rt; super::first_that(&WORDS, 1, &by), 1);
    assert_eq!(rt; super::first_that(&WORDS, 3, &by), 0);
}

#[test]
fn folds_by_a_closure(rt: HostRuntime) {
    for (start, count, wanted) in [
        (0, 3, 517273),
        (0, 2, 5172),
        (9, 1, 951),
        (0, 10, 517273),
        (8, 0, 8),
    ] {
        let made = fold_pairs(&WORDS, count, start, |first, second, made| {
            made.wrapping_mul(100)
                .wrapping_add(first.wrapping_mul(10))
                .wrapping_add(second)
        });
        assert_eq!(rt; made, wanted, "of {start} by {count}");
    }
}

#[test]
fn folds_by_what_its_words_do_not_fix(rt: HostRuntime) {
    let by = Numbered {
        calls: Cell::new(0),
    };
    assert_eq!(rt; super::fold_pairs(&WORDS, 3, 0, &by), 123);
    assert_eq!(rt; super::fold_pairs(&WORDS, 1, 0, &by), 4);
}
