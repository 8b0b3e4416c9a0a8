// The table reader with its answers in three words: the layout that the caller keeps goes in, and comes back where it may have changed.
#![tactic(auto)]

ghost use Rattle.table_layout.specs.Layout.{opened_of};
ghost use Rattle.complete_tables.specs.Complete.{opened_complete};
ghost use Rattle.coded_tables.specs.Tables.{FindsTable, ReadsMarks};

use answer_words::Answer;
use session::Refusal;
use table_layout::Layout;

// The answer to a call, the layout after it, and whether it differs from the one before.
// Not a Result: the layout is given back on a refusal too (`FindsTable`).
#[derive(Clone, Copy)]
pub struct Found {
    pub answer: Answer,
    pub layout: Layout,
    pub changed: bool,
}

fn found_as(opened: Result<Layout, Refusal>, layout: Layout) -> Found
    ensures { FindsTable opened layout result.answer result.layout result.changed }
{
    match opened {
        Ok(table) => Found {
            answer: answer_words::in_words(Answer::TAKEN, 0, 0),
            layout: table,
            changed: true,
        },
        Err(refusal) => Found {
            answer: Answer::from(refusal),
            layout,
            changed: false,
        },
    }
}

// Opens a table file: 21 to 28.
pub fn open(layout: Layout, file: &[u8]) -> Found
    ensures { FindsTable (opened_of file.now) layout result.answer result.layout result.changed }
{
    found_as(table_layout::open(file), layout)
}

// Opens a table file that has to be complete: 21 to 29.
pub fn open_complete(layout: Layout, file: &[u8]) -> Found
    ensures { FindsTable (opened_complete file.now) layout result.answer result.layout result.changed }
{
    found_as(complete_tables::open_complete(file), layout)
}

// The marks of an opened table, its file and its layout, into lent row words: 2, 21 to 28, 3.
pub fn read_marks(layout: Layout, file: &[u8], rows: &mut [u64]) -> Answer
    ensures { ReadsMarks layout file rows result }
{
    match table_marks::read_marks_of(file, layout, rows) {
        Ok(_) => answer_words::in_words(Answer::TAKEN, 0, 0),
        Err(refusal) => Answer::from(refusal),
    }
}
