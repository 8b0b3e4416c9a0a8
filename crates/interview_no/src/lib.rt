// No to the question of an interview (01: the program), below the checks: the Q line, and the row in its place.
#![tactic(auto)]

ghost use Rattle.context.specs.Parts.{mutable, shared};
ghost use Rattle.context.specs.Objects.{object};
ghost use Rattle.interview_replies.specs.Holding.{Beats, no_beat};

use interview_replies::{Beaten, Interview};

// No with a row of the table, counted from 1: the Q line, and the row filed where a place is left.
pub fn say_no(
    rows: &mut [u64],
    list: &[u64],
    interview: Interview,
    conclusion: u64,
    number: u64,
    yes: u64,
    no: u64,
    out: &mut [u8],
    at: usize,
) -> Beaten
    ensures { Beats (no_beat interview (mutable rows) (shared list) conclusion number (object yes no))
        (mutable rows) (shared list) out at result }
{
    let used = interview.rows;
    let end = output_lines::put_no(out, at, interview.n, interview.current, conclusion, number);
    if rows.len() / 2 <= used {
        return Beaten {
            next: None,
            at: closing_lines::put_refusal(out, end, 12, 0),
        };
    }
    rows[used * 2] = yes;
    rows[used * 2 + 1] = no;
    let next = Interview {
        rows: used + 1,
        ..interview
    };
    Beaten {
        next: Some(next),
        at: end,
    }
}
