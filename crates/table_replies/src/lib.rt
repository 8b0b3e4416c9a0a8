// The table's reply to the question of an interview (01: the program), below the checks.
#![tactic(auto)]

ghost use Rattle.context.specs.Parts.{mutable, shared};
ghost use Rattle.table_replies.specs.Reply.{Replies};

use interview_replies::{Beaten, Interview};

// The reply to the question: no with the first row of the table that refutes it, else yes.
pub fn reply(
    table: &[u64],
    objects: usize,
    rows: &mut [u64],
    list: &mut [u64],
    interview: Interview,
    conclusion: u64,
    out: &mut [u8],
    at: usize,
) -> Beaten
    ensures { Replies objects (shared table) interview (mutable rows) (mutable list) conclusion out at result }
{
    let place = written_marks::first_refuting(table, objects, interview.current, conclusion);
    let whole = objects.min(table.len() / 2);
    if place < whole {
        let yes = table[place * 2];
        let no = table[place * 2 + 1];
        let number = place as u64 + 1;
        return interview_no::say_no(rows, list, interview, conclusion, number, yes, no, out, at);
    }
    interview_yes::say_yes(rows, list, interview, conclusion, out, at)
}
