// Lists what nearly always comes with a premise, for rows that are lent without a session.
#![tactic(auto)]

ghost use Rattle.context.specs.Parts.{shared};
ghost use Rattle.nearly_listing.specs.Listing.{PercentChecked, Lists};

use session::Refusal;

// Check 31.
#[tactic(auto, unfolding(machine::specs::Checks::first_failing))]
fn check_percent(percent: u64) -> Result<(), Refusal>
    ensures { PercentChecked percent result }
{
    if nearly_always::PERCENT < percent {
        return size_checks::refused(31, 0);
    }
    Ok(())
}

// The attributes outside the premise that more than so many per cent of the rows in use with the premise have: 1 to 5, 31.
pub fn list_nearly(
    n: usize,
    used: usize,
    rows: &[u64],
    premise: u64,
    percent: u64,
) -> Result<u64, Refusal>
    ensures { Lists n used (shared rows) premise percent result }
{
    let marked = row_checks::check_rows_with(n, used, rows, premise);
    let within = check_percent(percent);
    marked.and(within)?;
    Ok(row_counts::nearly_always(n, used, rows, premise, percent))
}
