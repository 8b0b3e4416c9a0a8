// The answers of a session's calls in three words: functions and no `From`, since neither the results nor `Answer` are this crate's. Each
// has a clause of its own, also where two differ in a code alone.
#![tactic(auto)]

ghost use Rattle.std.specs.Prelude.{◌≡◌};
ghost use Rattle.session_steps.specs.Answers.{step_answer};
ghost use Rattle.session_queries.specs.Answers.{following_answer, refuting_answer};
ghost use Rattle.session_replies.specs.Answers.{reply_answer};
ghost use Rattle.session_test.specs.Answers.{testing_answer};
ghost use Rattle.answer_words.specs.Codes.{code_of};

use answer_words::{Answer, in_words};
use session::Refusal;
use session_steps::Step;

// The answer to a step.
pub fn answer_of_step(answer: Result<Step, Refusal>) -> Answer
    ensures { result ≡ code_of (step_answer answer) }
{
    match answer {
        Ok(Step::Finished) => in_words(Answer::FINISHED, 0, 0),
        Ok(Step::Moved) => in_words(Answer::MOVED, 0, 0),
        Ok(Step::Asked(question)) => {
            in_words(Answer::ASKED, question.premise, question.conclusion)
        }
        Err(refusal) => Answer::from(refusal),
    }
}

// The answer to a yes, a no, a filing or a filling.
pub fn answer_of_reply(answer: Result<(), Refusal>) -> Answer
    ensures { result ≡ code_of (reply_answer answer) }
{
    match answer {
        Ok(()) => in_words(Answer::TAKEN, 0, 0),
        Err(refusal) => Answer::from(refusal),
    }
}

// The answer to a question whether an implication follows.
pub fn answer_of_following(answer: Result<bool, Refusal>) -> Answer
    ensures { result ≡ code_of (following_answer answer) }
{
    match answer {
        Ok(follows) => in_words(Answer::FOLLOWS, follows as u64, 0),
        Err(refusal) => Answer::from(refusal),
    }
}

// The answer to a question whether a row refutes an implication.
pub fn answer_of_refuting(answer: Result<Option<usize>, Refusal>) -> Answer
    ensures { result ≡ code_of (refuting_answer answer) }
{
    match answer {
        Ok(Some(row)) => in_words(Answer::REFUTED, row as u64, 0),
        Ok(None) => in_words(Answer::UNREFUTED, 0, 0),
        Err(refusal) => Answer::from(refusal),
    }
}

// The answer to a test.
pub fn answer_of_testing(answer: Result<(), Refusal>) -> Answer
    ensures { result ≡ code_of (testing_answer answer) }
{
    match answer {
        Ok(()) => in_words(Answer::REFUTES, 0, 0),
        Err(refusal) => Answer::from(refusal),
    }
}
