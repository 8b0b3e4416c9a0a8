// The parts of the text of a table file, written into a lent buffer from an offset on; the answer is the offset behind them. An object
// is 01's row, an attribute its property.
#![tactic(auto)]

ghost use Rattle.std.specs.Prelude.{[], ◌∷◌};
ghost use Rattle.context.specs.Objects.{objects_of, whole};
ghost use Rattle.text.specs.Page.{Puts};
ghost use Rattle.marks_text.specs.Marks.{marks_text};
ghost use Rattle.closed_lines.specs.Closed.{closed};
ghost use Rattle.table_text.specs.Table.{header_lines, mark_lines};

// The first five lines: `B`, an empty title, the two counts, an empty line.
pub fn put_header(out: &mut [u8], at: usize, objects: usize, attributes: usize) -> usize
    ensures { Puts out at result (closed (header_lines objects attributes)) }
{
    let titled = text::put_bytes(out, at, b"B\n\n");
    let counted = closing_lines::put_number_then(out, titled, objects as u64, b'\n');
    let both = closing_lines::put_number_then(out, counted, attributes as u64, b'\n');
    text::put_byte(out, both, b'\n')
}

// The line of marks of a row.
fn put_row(out: &mut [u8], at: usize, n: usize, yes: u64, no: u64) -> usize
    ensures { Puts out at result (closed (marks_text n yes no ∷ [])) }
{
    let marked = marks_text::put_marks(out, at, n, yes, no);
    text::put_byte(out, marked, b'\n')
}

// The lines of marks of the rows in use, as many of them as the slice has whole: a loop of its own, as `output_lines::put_list`.
pub fn put_rows(out: &mut [u8], at: usize, n: usize, rows: &[u64], used: usize) -> usize
    ensures { Puts out at result (closed (mark_lines n (objects_of (whole used rows.now) rows.now))) }
{
    let (whole, _) = rows.as_chunks::<2>();
    let mut to = at;
    for &[yes, no] in whole.iter().take(used) {
        to = put_row(out, to, n, yes, no);
    }
    to
}
