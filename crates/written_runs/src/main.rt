// Reads every table file that its arguments name and writes what was read: the file's name with the refusal, or with the number of bytes,
// the text, and whether the text, read and written once more, is the same bytes.
#![tactic(auto)]

use std::io::Write;
use table_layout::Layout;

// A number, and a refusal: one `write!` each, which a crate for both programs would not shorten.
fn put<W: Write>(writer: &mut W, n: u64) {
    let _ = write!(writer, " {n}");
}

fn put_refusal<W: Write>(writer: &mut W, refusal: session::Refusal) {
    let _ = writeln!(writer, " E {} {}", refusal.number, refusal.place);
}

// So many bytes, or all where there are fewer.
fn first(bytes: &[u8], size: usize) -> &[u8] {
    &bytes[..size.min(bytes.len())]
}

// Whether an output begins with a text.
fn put_same<W: Write>(writer: &mut W, text: &[u8], out: &[u8], size: usize) {
    if text == first(out, size) {
        let _ = writer.write_all(b"the same\n");
    } else {
        let _ = writer.write_all(b"other bytes\n");
    }
}

// Whether a text, read and written once more, is the same bytes.
fn put_settled<W: Write>(writer: &mut W, text: &[u8]) {
    let mut again = [0u8; Layout::BYTES];
    match rewritten_tables::rewrite(text, &mut again) {
        Ok(size) => put_same(writer, text, &again, size),
        Err(refusal) => put_refusal(writer, refusal),
    }
}

// The text that an output begins with.
fn put_text<W: Write>(writer: &mut W, out: &[u8], size: usize) {
    let text = first(out, size);
    put(writer, size as u64);
    let _ = writer.write_all(b"\n");
    let _ = writer.write_all(text);
    put_settled(writer, text);
}

fn show<W: Write>(writer: &mut W, file: &[u8]) {
    let mut out = [0u8; Layout::BYTES];
    match rewritten_tables::rewrite(file, &mut out) {
        Ok(size) => put_text(writer, &out, size),
        Err(refusal) => put_refusal(writer, refusal),
    }
}

fn show_argument(rt: &HostRuntime, number: usize) {
    let mut file = [0u8; Layout::BYTES + 1];
    let (mut stdout, mut stderr) = (rt.stdout(), rt.stderr());
    let read = named_files::read_argument(rt, number, &mut file, &mut stdout, &mut stderr);
    if let Some(size) = read {
        show(&mut stdout, &file[..size]);
    }
}

// A loop of one line, as in the other two programs over named files: a function for it would take what is done as a closure, and be longer.
fn main(rt: HostRuntime) {
    for i in 1..named_files::count_arguments(&rt) {
        show_argument(&rt, i);
    }
}
