// Checks 1 to 5 of document 01 for rows that are lent without a session.
#![tactic(auto)]

ghost use Rattle.row_checks.specs.Rows.{RowsChecked, RowsCheckedWith};

// Checks 1 to 5, where 4 covers the set asked about too: those of a session that has the rows and no rules, of which 6 and 7 cannot be the
// first to fail, and of a rule asked about that has the set as its premise and concludes nothing.
pub fn check_rows_with(
    n: usize,
    used: usize,
    rows: &[u64],
    asked: u64,
) -> Result<(), session::Refusal>
    ensures { RowsCheckedWith n used rows.now asked result }
{
    let session = session::Session {
        n,
        rows: used,
        rules: 0,
        current: 0,
    };
    session_checks::check_session(session, rows, &[], &[], asked, 0)
}

// Checks 1 to 5 where no set is asked about.
pub fn check_rows(n: usize, used: usize, rows: &[u64]) -> Result<(), session::Refusal>
    ensures { RowsChecked n used rows.now result }
{
    check_rows_with(n, used, rows, 0)
}
