// Rows lent without a session, for C.
ghost use Rattle.context.specs.Parts.{shared};
ghost use Rattle.coded_nearly.specs.Listing.{ListsCoded};

// The attributes outside the premise that more than so many per cent of the rows in use with the premise have.
#[unsafe(no_mangle)]
pub extern "C" fn zundrafl_nearly(
    n: usize,
    used: usize,
    rows: &[u64],
    premise: u64,
    percent: u64,
    answer: &mut answer_words::Answer,
)
    ensures { ListsCoded n used (shared rows) premise percent answer.new }
{
    let made = coded_nearly::list_nearly(n, used, rows, premise, percent);
    *answer = made;
}
