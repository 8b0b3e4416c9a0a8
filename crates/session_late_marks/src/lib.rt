// The filling of a row with marks that became known, by value. It takes the record and the lent words (row words, list words, background
// words), makes its checks, and writes the row. The record stays as it is.
#![tactic(auto)]

ghost use Rattle.context.specs.Parts.{mutable, shared};
ghost use Rattle.std.specs.Prelude.{◌≡◌, ◌+◌, ◌*◌, ◌<◌, length};
ghost use Rattle.context.specs.Objects.{object};
ghost use Rattle.machine.specs.Machine.{fill};
ghost use Rattle.machine.specs.Calls.{given, Performs};
ghost use Rattle.session_replies.specs.Answers.{reply_answer};
ghost use Rattle.session_late_marks.specs.Marks.{FillChecked, marked};

use session::{Refusal, Session};

// The checks of a filling: 1 to 7, then 32, 9, 33 and 11.
#[tactic(auto, using(crate::proofs::Marks::Laws::fill_places))]
fn check_fill(
    session: Session,
    rows: &[u64],
    list: &[u64],
    background: &[u64],
    row: usize,
    yes: u64,
    no: u64,
) -> Result<(), Refusal>
    ensures { FillChecked (given session (shared rows) (shared list) (shared background)) row (object yes no) result }
{
    session_checks::check_session(session, rows, list, background, 0, 0)?;
    if session.rows <= row {
        return size_checks::refused(32, 0);
    }
    let known_yes = rows[row * 2];
    let known_no = rows[row * 2 + 1];
    offered_rows::check_added_marks(
        session.n,
        background,
        list,
        session.rules,
        known_yes,
        known_no,
        yes,
        no,
    )
}

// Marks are added to the two words of a row.
fn add_marks(rows: &mut [u64], row: usize, yes: u64, no: u64)
    requires { row * 2 + 1 < length rows.old }
    ensures { rows.new ≡ marked rows.old row (object yes no) }
{
    rows[row * 2] |= yes;
    rows[row * 2 + 1] |= no;
}

// 02's filling: the marks of the offered row are added to the row of this number.
pub fn fill_row(
    session: Session,
    rows: &mut [u64],
    list: &[u64],
    background: &[u64],
    row: usize,
    yes: u64,
    no: u64,
) -> Result<(), Refusal>
    ensures { Performs (fill row (object yes no)) session (mutable rows) (shared list) (shared background) (reply_answer result) session }
{
    check_fill(session, rows, list, background, row, yes, no)?;
    add_marks(rows, row, yes, no);
    Ok(())
}
