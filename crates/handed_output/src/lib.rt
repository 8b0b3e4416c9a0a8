// The output handed over to be written, part by part as it becomes known. How many bytes went is counted, so that none goes twice and
// none is left out.
#![tactic(auto)]

ghost use Rattle.std.specs.Prelude.{length};
ghost use Rattle.closing_lines.specs.Closing.{refusal_line};
ghost use Rattle.handed_output.specs.Handing.{HandsOver, Tells};

use std::io::Write;

// How many bytes were handed over, and whether every write took all of its part. Both are told of each output, so this is no Result.
#[derive(Clone, Copy)]
pub struct Handed {
    pub bytes: usize,
    pub whole: bool,
}

// What an output leaves: the offset behind its text in the buffer, and what was handed over.
#[derive(Clone, Copy)]
pub struct Told {
    pub end: usize,
    pub handed: Handed,
}

// Hands over what stands in the buffer between two offsets. A write that failed is the last.
pub fn hand_over<W: Write>(
    writer: &mut W,
    out: &[u8],
    from: usize,
    to: usize,
    before: Handed,
) -> Handed
    ensures { HandsOver (length out.now) from to before result }
{
    if to <= from || !before.whole || out.len() < to {
        return before;
    }
    let part = &out[from..to];
    let Some(bytes) = before.bytes.checked_add(part.len()) else {
        return before;
    };
    let whole = writer.write_all(part).is_ok();
    Handed { bytes, whole }
}

// The refusal line, handed over.
pub fn write_refusal<W: Write>(
    refusal: session::Refusal,
    out: &mut [u8],
    writer: &mut W,
    before: Handed,
) -> Told
    ensures { Tells out before result (refusal_line refusal) }
{
    let end = closing_lines::put_refusal(out, 0, refusal.number, refusal.place as u64);
    let handed = hand_over(writer, out, 0, end, before);
    Told { end, handed }
}
