// Checks 5 and 6 of document 01: rows in use that mark an attribute both ways, or that contradict the rules in force.
#![tactic(auto)]

ghost use Rattle.context.specs.Parts.{shared};
ghost use Rattle.std.specs.Prelude.{◌≡◌, ◌+◌, ◌-◌, ◌*◌, ◌≤◌, length, drop};
ghost use Rattle.context.specs.Places.{lowest};
ghost use Rattle.context.specs.Objects.{object, objects_of, marked_twice};
ghost use Rattle.machine.specs.Calls.{given};
ghost use Rattle.mark_checks.specs.Marks.{Marks};

use word_pairs::PairTest;

// What a search asks of each row: whether it marks an attribute both ways.
#[derive(Clone, Copy)]
struct MarkedTwice;

impl PairTest for MarkedTwice {
    ghost passes = { λ _ yes no. marked_twice (object yes no) };

    #[tactic(auto, unfolding(context::specs::Objects::marked_twice, attribute_set::specs::Sets::meets))]
    fn test(&self, yes: u64, no: u64) -> bool {
        yes & no != 0
    }
}

// The first of count rows, from a place on, that marks an attribute both ways; count where none does.
fn first_double(rows: &[u64], count: usize, from: usize) -> usize
    requires { (count * 2 ≤ length rows.now) × (from ≤ count) }
    ensures { result ≡ from + lowest marked_twice (objects_of (count - from) (drop (from * 2) rows.now)) }
{
    from + word_pairs::first_that(&rows[from * 2..], count - from, &MarkedTwice)
}

// Checks 5 and 6. A row that marks an attribute both ways contradicts too, so the rows before the first that contradicts need
// no second look: one pass over the rows in all.
pub fn check_marks(
    session: session::Session,
    rows: &[u64],
    list: &[u64],
    background: &[u64],
) -> Result<(), session::Refusal>
    ensures { Marks (given session (shared rows) (shared list) (shared background)) result }
{
    let used = session.rows;
    let rules = session.rules;
    let row = contradictions::first_contradiction(rows, used, list, rules, background, 0, 0);
    if used <= row {
        return Ok(());
    }
    let whole = used.min(rows.len() / 2);
    let double = first_double(rows, whole, row);
    if double < whole {
        return size_checks::refused(5, double);
    }
    size_checks::refused(6, row)
}
