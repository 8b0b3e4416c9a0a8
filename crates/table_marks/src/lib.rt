// The marks of a table file: each line of them as the two words of a row (an object), read into lent row words.
#![tactic(auto)]

ghost use Rattle.std.specs.Prelude.{◌≡◌, ◌*◌, ◌≤◌, ◌++◌, Ok, length, drop, replicate};
ghost use Rattle.session.specs.Limits.{most_attributes};
ghost use Rattle.table_kinds.specs.declared.Kind.TheVariants.{Marks};
ghost use Rattle.table_layout.specs.declared.Layout.{Layout as LayoutT};
ghost use Rattle.line_walk.specs.Walk.{walk};
ghost use Rattle.table_walk.specs.Walk.{Passes};
ghost use Rattle.table_layout.specs.Layout.{opened_of};
ghost use Rattle.table_rows.specs.Rows.{rows_from};
ghost use Rattle.mark_reading.specs.Marks.{flat, reading_from, reading, reading_as, words_of_rows, words_read};
ghost use Rattle.mark_reading.specs.Marks.{complete_reading, complete_words_read};

use session::{Refusal, Session};
use table_layout::Layout;

// The mark reader: the part of the file that starts at the first line of marks, into row words that have place for its rows.
fn read_rows(part: &[u8], count: usize, n: usize, rows: &mut [u64])
    requires { (count * 2 ≤ length rows.old) × (n ≤ most_attributes) × Passes (walk (replicate count (Marks n)) part.now 0) }
    ensures { rows.new ≡ flat (rows_from count part.now 0) ++ drop (count * 2) rows.old }
{
    let mut at = 0;
    // By index: of a slice that chunks_exact_mut or as_chunks_mut has lent, std promises no word afterwards.
    for i in 0..count {
        let end = at + n;
        let row = table_rows::row_of(&part[at..end]);
        rows[i * 2] = row.yes;
        rows[i * 2 + 1] = row.no;
        at = line_ends::next_at(part, end);
    }
}

// The rows of a file that was opened, where the row words have place for them; nothing is written on a refusal.
fn read_opened(
    file: &[u8],
    opened: Result<Layout, Refusal>,
    rows: &mut [u64],
) -> Result<Layout, Refusal>
    requires { (l : LayoutT) → opened ≡ Ok l → opened_of file.now ≡ Ok l }
    ensures answer { result ≡ reading_from (length rows.old) opened }
    ensures written { rows.new ≡ words_of_rows result file.now rows.old }
{
    let layout = opened?;
    if rows.len() / 2 < layout.objects {
        return Err(session::refuse(3, 0));
    }
    read_rows(
        &file[layout.marks..],
        layout.objects,
        layout.attributes,
        rows,
    );
    Ok(layout)
}

// Reads the marks of a table file into lent row words; nothing is written unless everything passed.
pub fn read_marks(file: &[u8], rows: &mut [u64]) -> Result<Layout, Refusal>
    ensures answer { result ≡ reading (length rows.old) file.now }
    ensures written { rows.new ≡ words_read file.now rows.old }
{
    if size_tests::bad_length(rows.len(), Session::ROWS) {
        return Err(session::refuse(2, 0));
    }
    read_opened(file, table_layout::open(file), rows)
}

// Reads the marks of an opened table, its file and its layout, as `read_marks` does.
pub fn read_marks_of(file: &[u8], layout: Layout, rows: &mut [u64]) -> Result<Layout, Refusal>
    ensures answer { result ≡ reading_as layout (length rows.old) file.now }
    ensures written { rows.new ≡ words_of_rows result file.now rows.old }
{
    if size_tests::bad_length(rows.len(), Session::ROWS) {
        return Err(session::refuse(2, 0));
    }
    read_opened(file, found_layout::open_as(file, layout), rows)
}

// Reads the marks of a table file that has to be complete, as `read_marks` does: each of the three is its own opening before `read_opened`,
// which is all that a function over openings would save.
pub fn read_complete(file: &[u8], rows: &mut [u64]) -> Result<Layout, Refusal>
    ensures answer { result ≡ complete_reading (length rows.old) file.now }
    ensures written { rows.new ≡ complete_words_read file.now rows.old }
{
    if size_tests::bad_length(rows.len(), Session::ROWS) {
        return Err(session::refuse(2, 0));
    }
    read_opened(file, complete_tables::open_complete(file), rows)
}
