// Listing what nearly always comes with a premise, with its answer in three words.
#![tactic(auto)]

ghost use Rattle.context.specs.Parts.{shared};
ghost use Rattle.coded_nearly.specs.Listing.{ListsCoded};

use answer_words::Answer;

// The set of attributes, or 1 to 5, 31.
pub fn list_nearly(n: usize, used: usize, rows: &[u64], premise: u64, percent: u64) -> Answer
    ensures { ListsCoded n used (shared rows) premise percent result }
{
    match nearly_listing::list_nearly(n, used, rows, premise, percent) {
        Ok(set) => answer_words::in_words(Answer::TAKEN, set, 0),
        Err(refusal) => Answer::from(refusal),
    }
}
