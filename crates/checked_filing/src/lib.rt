// The filing of an offered row behind checks 1 to 7, by value: its own checks, the row written, the record given back.
#![tactic(auto)]

ghost use Rattle.std.specs.Prelude.{OnOk, ◌+◌, ◌*◌, ◌<◌, length};
ghost use Rattle.context.specs.Parts.{mutable, shared};
ghost use Rattle.context.specs.Objects.{object};
ghost use Rattle.machine.specs.Calls.{given};
ghost use Rattle.checked_filing.specs.Checked.{FilingChecked, FilesChecked};

use session::{Refusal, Session, Turn};

// Checks 9, 11 and 12 of a filing.
fn check_filing(
    session: Session,
    rows: &[u64],
    list: &[u64],
    background: &[u64],
    yes: u64,
    no: u64,
) -> Result<(), Refusal>
    ensures verdict { FilingChecked (given session (shared rows) (shared list) (shared background)) (object yes no) result }
    ensures room { OnOk result (session.rows * 2 + 1 < length rows.now) }
{
    offered_rows::check_filed_row(session.n, background, list, session.rules, yes, no)?;
    if rows.len() / 2 <= session.rows {
        return size_checks::refused(12, 0);
    }
    Ok(())
}

// A filing behind checks 1 to 7, which it does not make.
pub fn file_checked(
    session: Session,
    rows: &mut [u64],
    list: &[u64],
    background: &[u64],
    yes: u64,
    no: u64,
) -> Turn<Result<(), Refusal>>
    ensures { FilesChecked (object yes no) session (mutable rows) (shared list) (shared background) result }
{
    let used = session.rows;
    if let Err(refusal) = check_filing(session, rows, list, background, yes, no) {
        return session_replies::refused(session, refusal);
    }
    rows[used * 2] = yes;
    rows[used * 2 + 1] = no;
    let filed = Session {
        rows: used + 1,
        ..session
    };
    Turn::changed(filed, Ok(()))
}
