// One beat of an interview over a complete table (01: the program), below the checks: a step, and the table's reply where it asks.
#![tactic(auto)]

ghost use Rattle.context.specs.Parts.{mutable, shared};
ghost use Rattle.interview_beat.specs.Beat.{WritesEnd, Advances};

use interview_replies::{Beaten, Interview};

// Finished: the list and the totals.
fn finish(rows: &[u64], list: &[u64], interview: Interview, out: &mut [u8], at: usize) -> usize
    ensures { WritesEnd interview (shared rows) (shared list) out at result }
{
    let end = output_lines::put_list(out, at, interview.n, list, interview.rules);
    closing_lines::put_end(
        out,
        end,
        interview.rules as u64,
        interview.rows as u64,
        interview.changes,
    )
}

// One beat. The words lent for the table hold its rows.
pub fn advance(
    table: &[u64],
    objects: usize,
    rows: &mut [u64],
    list: &mut [u64],
    interview: Interview,
    out: &mut [u8],
    at: usize,
) -> Beaten
    ensures { Advances objects (shared table) interview (mutable rows) (mutable list) out at result }
{
    let n = interview.n;
    let current = interview.current;
    if current == set_words::full_set(n) {
        return Beaten {
            next: None,
            at: finish(rows, list, interview, out, at),
        };
    }
    let reach = written_reach::reach_of(n, rows, interview.rows, current);
    if reach != current {
        let conclusion = set_words::difference(reach, current);
        return table_replies::reply(table, objects, rows, list, interview, conclusion, out, at);
    }
    let next = Interview {
        current: closed_sets::next_of(&table[..0], list, interview.rules, n, current),
        changes: interview_replies::count_change(interview.changes),
        ..interview
    };
    Beaten {
        next: Some(next),
        at,
    }
}
