// Yes to the question of an interview (01: the program), below the checks: the Q line, and the rule in its place.
#![tactic(auto)]

ghost use Rattle.context.specs.Parts.{mutable, shared};
ghost use Rattle.std.specs.Prelude.{◌≤◌};
ghost use Rattle.session.specs.Limits.{most_attributes};
ghost use Rattle.interview_replies.specs.Holding.{Beats, yes_beat};

use interview_replies::{Beaten, Interview};

// Yes: the Q line, and the question in the list where a place is left.
pub fn say_yes(
    rows: &[u64],
    list: &mut [u64],
    interview: Interview,
    conclusion: u64,
    out: &mut [u8],
    at: usize,
) -> Beaten
    ensures { interview.n ≤ most_attributes → Beats (yes_beat interview (shared rows) (mutable list) conclusion)
        (shared rows) (mutable list) out at result }
{
    let n = interview.n;
    let rules = interview.rules;
    let premise = interview.current;
    let end = output_lines::put_yes(out, at, n, premise, conclusion);
    if list.len() / 2 <= rules {
        return Beaten {
            next: None,
            at: closing_lines::put_refusal(out, end, 12, 0),
        };
    }
    list[rules * 2] = premise;
    list[rules * 2 + 1] = conclusion;
    let next = Interview {
        rules: rules + 1,
        current: closed_sets::next_of(&rows[..0], list, rules + 1, n, premise),
        changes: interview_replies::count_change(interview.changes),
        ..interview
    };
    Beaten {
        next: Some(next),
        at: end,
    }
}
