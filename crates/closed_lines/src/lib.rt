// Lines as text, each closed by a line feed, written into a lent buffer from an offset on; the answer is the offset behind them.
#![tactic(auto)]

ghost use Rattle.std.specs.Prelude.{◌≡◌, [], ◌∷◌};
ghost use Rattle.text.specs.Page.{Puts};
ghost use Rattle.closed_lines.specs.Closed.{closed, bytes_in, first_lines};

// A line.
fn put_line(out: &mut [u8], at: usize, line: &[u8]) -> usize
    ensures { Puts out at result (closed (line.now ∷ [])) }
{
    let written = text::put_bytes(out, at, line);
    text::put_byte(out, written, b'\n')
}

// The first lines of lent bytes.
pub fn put_lines(out: &mut [u8], at: usize, bytes: &[u8], count: usize) -> usize
    ensures { Puts out at result (closed (first_lines count bytes.now)) }
{
    let mut to = at;
    let mut from = 0;
    for _ in 0..count {
        if bytes.len() <= from {
            return to;
        }
        let line = line_ends::line_at(bytes, from);
        let end = from + line.size;
        to = put_line(out, to, &bytes[from..end]);
        from += line.step;
    }
    to
}

// How many bytes the first lines of lent bytes have, without their ends.
pub fn size_of_lines(bytes: &[u8], count: usize) -> usize
    ensures { result ≡ bytes_in (first_lines count bytes.now) }
{
    let mut size = 0;
    let mut from = 0;
    for _ in 0..count {
        if bytes.len() <= from {
            return size;
        }
        let line = line_ends::line_at(bytes, from);
        size += line.size;
        from += line.step;
    }
    size
}
