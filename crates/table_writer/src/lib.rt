// Writes a table file into a lent output: the text stands at its start, and every byte behind it is kept. An object is 01's row, an
// attribute its property.
#![tactic(auto)]

ghost use Rattle.context.specs.Parts.{shared};
ghost use Rattle.std.specs.Prelude.{◌≡◌, length};
ghost use Rattle.text.specs.Page.{Puts};
ghost use Rattle.table_text.specs.Table.{text_of};
ghost use Rattle.table_writing.specs.Writing.{RowsPass, NamesPass, Writes};

use session::Refusal;
use table_kinds::Kind;
use table_layout::Layout;

// How many bytes the text has.
fn size_of_text(n: usize, used: usize, rows: &[u64], names: &[u8]) -> usize
    requires { RowsPass n used rows.now × NamesPass n used names.now }
    ensures { result ≡ length (text_of n used rows.now names.now) }
{
    let counts = text::size_of_number(used as u64) + text::size_of_number(n as u64);
    let lines = closed_lines::size_of_lines(names, used + n) + used + n;
    6 + counts + lines + used * (n + 1)
}

// The text, from the start of the output on.
fn put_table(n: usize, used: usize, rows: &[u64], names: &[u8], out: &mut [u8]) -> usize
    requires { RowsPass n used rows.now }
    ensures { Puts out 0 result (text_of n used rows.now names.now) }
{
    let headed = table_text::put_header(out, 0, used, n);
    let named = closed_lines::put_lines(out, headed, names, used + n);
    table_text::put_rows(out, named, n, rows, used)
}

// Refusal 30, or the text.
fn write_named(
    n: usize,
    used: usize,
    rows: &[u64],
    names: &[u8],
    out: &mut [u8],
) -> Result<usize, Refusal>
    requires { RowsPass n used rows.now × NamesPass n used names.now }
    ensures { Writes n used (shared rows) names out result }
{
    let size = size_of_text(n, used, rows, names);
    if Layout::BYTES < size || out.len() < size {
        return Err(session::refuse(30, 0));
    }
    put_table(n, used, rows, names, out);
    Ok(size)
}

// Refusal 26, and then 30, or the text.
fn write_rows(
    n: usize,
    used: usize,
    rows: &[u64],
    names: &[u8],
    out: &mut [u8],
) -> Result<usize, Refusal>
    requires { RowsPass n used rows.now }
    ensures { Writes n used (shared rows) names out result }
{
    table_walk::walk_lines(names, Ok(0), Kind::Name, used + n)?;
    write_named(n, used, rows, names, out)
}

// Writes n attributes, the rows in use of the row words, and the names lent as lines, as a table file: 1 to 5, 26, 30.
pub fn write_table(
    n: usize,
    used: usize,
    rows: &[u64],
    names: &[u8],
    out: &mut [u8],
) -> Result<usize, Refusal>
    ensures { Writes n used (shared rows) names out result }
{
    row_checks::check_rows(n, used, rows)?;
    write_rows(n, used, rows, names, out)
}
