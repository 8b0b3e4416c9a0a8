// Where the line ends that begins at an offset of a file, and where the next one begins.
#![tactic(auto)]

ghost use Rattle.std.specs.Prelude.{◌≡◌, ◌<◌, length, drop};
ghost use Rattle.table_lines.specs.Lines.{returned, end_of, line_of, after};

use table_lines::Line;

// How many bytes a line end has whose carriage return stands just before an offset.
fn returned_at(file: &[u8], next: usize) -> usize
    ensures { result ≡ returned (drop next file.now) }
{
    if next >= file.len() {
        return 1;
    }
    match file[next] {
        b'\n' => 2,
        _ => 1,
    }
}

// How many bytes the line end at i has; 0 where none begins there.
fn end_at(file: &[u8], i: usize) -> usize
    requires { i < length file.now }
    ensures { result ≡ end_of (drop i file.now) }
{
    match file[i] {
        b'\n' => 1,
        b'\r' => returned_at(file, i + 1),
        _ => 0,
    }
}

// The line that begins at an offset; past the end of the file a line without bytes.
pub fn line_at(file: &[u8], at: usize) -> Line
    ensures { result ≡ line_of (drop at file.now) }
{
    for i in at..file.len() {
        let end = end_at(file, i);
        if end != 0 {
            return Line {
                size: i - at,
                step: i - at + end,
            };
        }
    }
    let size = file.len().saturating_sub(at);
    Line { size, step: size }
}

// Where the next line begins.
pub fn next_at(file: &[u8], at: usize) -> usize
    ensures { result ≡ after file.now at }
{
    let line = line_at(file, at);
    at + line.step
}
