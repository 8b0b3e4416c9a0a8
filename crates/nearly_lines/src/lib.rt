// The lines of the program `nearly`, written into a lent buffer from an offset on; the answer is the offset behind them.
#![tactic(auto)]

ghost use Rattle.std.specs.Prelude.{[], ◌∷◌, ◌^◌, ◌<◌, length};
ghost use Rattle.context.specs.Objects.{objects_of};
ghost use Rattle.text.specs.Page.{Puts};
ghost use Rattle.nearly_always.specs.Nearly.{InRange};
ghost use Rattle.short_premises.specs.Premises.{pairs_with, premises};
ghost use Rattle.nearly_lines.specs.Lines.{nearly_lines, PutsAll};

// The line of one premise, with the attributes that more than so many per cent of the rows with it have.
fn put_line(
    out: &mut [u8],
    at: usize,
    n: usize,
    used: usize,
    rows: &[u64],
    percent: u64,
    premise: u64,
) -> usize
    requires { InRange n used (length rows.now) percent }
    ensures { Puts out at result (nearly_lines n percent (objects_of used rows.now) (premise ∷ [])) }
{
    let listed = row_counts::nearly_always(n, used, rows, premise, percent);
    output_lines::put_rule(out, at, n, b"N ", premise, listed, b"\n")
}

// The lines of attribute i with each one above it, the highest first.
fn put_pairs(
    out: &mut [u8],
    at: usize,
    n: usize,
    used: usize,
    rows: &[u64],
    percent: u64,
    i: usize,
) -> usize
    requires { InRange n used (length rows.now) percent × (i < n) }
    ensures { Puts out at result (nearly_lines n percent (objects_of used rows.now) (pairs_with i n)) }
{
    let single = set_words::raised(0, i);
    let mut to = at;
    for j in (i + 1..n).rev() {
        to = put_line(
            out,
            to,
            n,
            used,
            rows,
            percent,
            set_words::raised(single, j),
        );
    }
    to
}

// The lines of attribute i alone, and with each one above it.
fn put_with(
    out: &mut [u8],
    at: usize,
    n: usize,
    used: usize,
    rows: &[u64],
    percent: u64,
    i: usize,
) -> usize
    requires { InRange n used (length rows.now) percent × (i < n) }
    ensures { Puts out at result (nearly_lines n percent (objects_of used rows.now) (2 ^ i ∷ pairs_with i n)) }
{
    let alone = put_line(out, at, n, used, rows, percent, set_words::raised(0, i));
    put_pairs(out, alone, n, used, rows, percent, i)
}

// The lines of all premises of one or two attributes.
fn put_each(out: &mut [u8], at: usize, n: usize, used: usize, rows: &[u64], percent: u64) -> usize
    requires { InRange n used (length rows.now) percent }
    ensures { Puts out at result (nearly_lines n percent (objects_of used rows.now) (premises n)) }
{
    let mut to = at;
    for i in (0..n).rev() {
        to = put_with(out, to, n, used, rows, percent, i);
    }
    to
}

// The same for any numbers; nothing where they are out of range.
pub fn put_lines(
    out: &mut [u8],
    at: usize,
    n: usize,
    used: usize,
    rows: &[u64],
    percent: u64,
) -> usize
    ensures { PutsAll out at n used rows.now percent result }
{
    if !row_counts::in_range(n, used, rows.len(), percent) {
        return at;
    }
    put_each(out, at, n, used, rows, percent)
}
