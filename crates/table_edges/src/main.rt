// Reads every table file that its arguments name, and writes a line for each: its name, then the refusal, or the counts and
// offsets found, the words of the first and the last row, and the lengths of the first and the last name of each kind.
#![tactic(auto)]

use std::io::Write;

// A number, and a refusal: one `write!` each, which a crate for both programs would not shorten.
fn put<W: Write>(writer: &mut W, n: u64) {
    let _ = write!(writer, " {n}");
}

fn put_refusal<W: Write>(writer: &mut W, refusal: session::Refusal) {
    let _ = write!(writer, " E {} {}", refusal.number, refusal.place);
}

// The words of a row of those that were read.
fn put_row<W: Write>(writer: &mut W, rows: &[u64], number: usize) {
    if let Some([yes, no]) = rows.as_chunks::<2>().0.get(number) {
        put(writer, *yes);
        put(writer, *no);
    }
}

// How many bytes a name has, 0 where there is none.
fn put_size<W: Write>(writer: &mut W, name: Result<&[u8], session::Refusal>) {
    put(writer, name.map_or(0, |bytes| bytes.len() as u64));
}

fn put_object<W: Write>(writer: &mut W, file: &[u8], layout: table_layout::Layout, number: usize) {
    put_size(writer, table_names::object_name(file, layout, number));
}

fn put_attribute<W: Write>(
    writer: &mut W,
    file: &[u8],
    layout: table_layout::Layout,
    number: usize,
) {
    put_size(writer, table_names::attribute_name(file, layout, number));
}

fn put_names<W: Write>(writer: &mut W, file: &[u8], layout: table_layout::Layout) {
    put_object(writer, file, layout, 0);
    if 0 < layout.objects {
        put_object(writer, file, layout, layout.objects - 1);
    }
    put_object(writer, file, layout, layout.objects);
    put_attribute(writer, file, layout, 0);
    if 0 < layout.attributes {
        put_attribute(writer, file, layout, layout.attributes - 1);
    }
    put_attribute(writer, file, layout, layout.attributes);
}

// Whether the table is complete; else where its first unknown mark is.
fn put_complete<W: Write>(writer: &mut W, file: &[u8]) {
    let mut rows = [0u64; session::Session::ROWS * 2];
    match table_marks::read_complete(file, &mut rows) {
        Ok(_) => {
            let _ = writer.write_all(b" complete");
        }
        Err(refusal) => put_refusal(writer, refusal),
    }
}

fn put_table<W: Write>(writer: &mut W, file: &[u8], rows: &[u64], layout: table_layout::Layout) {
    put(writer, layout.objects as u64);
    put(writer, layout.attributes as u64);
    put(writer, layout.object_names as u64);
    put(writer, layout.attribute_names as u64);
    put(writer, layout.marks as u64);
    if 0 < layout.objects {
        put_row(writer, rows, 0);
        put_row(writer, rows, layout.objects - 1);
    }
    put_names(writer, file, layout);
    put_complete(writer, file);
}

fn show<W: Write>(writer: &mut W, file: &[u8]) {
    let mut rows = [0u64; session::Session::ROWS * 2];
    match table_marks::read_marks(file, &mut rows) {
        Ok(layout) => put_table(writer, file, &rows, layout),
        Err(refusal) => put_refusal(writer, refusal),
    }
}

fn show_argument(rt: &HostRuntime, number: usize) {
    let mut file = [0u8; table_layout::Layout::BYTES + 1];
    let (mut stdout, mut stderr) = (rt.stdout(), rt.stderr());
    let read = named_files::read_argument(rt, number, &mut file, &mut stdout, &mut stderr);
    if let Some(size) = read {
        show(&mut stdout, &file[..size]);
        let _ = stdout.write_all(b"\n");
    }
}

// A loop of one line, as in the other two programs over named files: a function for it would take what is done as a closure, and be longer.
fn main(rt: HostRuntime) {
    for i in 1..named_files::count_arguments(&rt) {
        show_argument(&rt, i);
    }
}
