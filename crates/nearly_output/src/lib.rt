// The output of the program nearly (02, request 3/13), handed over: the lines of a table file, or the line of its refusal.
#![tactic(auto)]

ghost use Rattle.std.specs.Prelude.{length};
ghost use Rattle.context.specs.Objects.{objects_of};
ghost use Rattle.handed_output.specs.Handing.{Tells, Writes};
ghost use Rattle.nearly_always.specs.Nearly.{InRange};
ghost use Rattle.short_premises.specs.Premises.{premises};
ghost use Rattle.nearly_lines.specs.Lines.{nearly_lines};
ghost use Rattle.nearly_output.specs.Output.{percentage, nearly_output};

use handed_output::{Handed, Told};
use session::Session;
use std::io::Write;

// The bytes of a buffer that holds every output whole.
pub const OUTPUT_BYTES: usize = 274560;

// The percentage that the program lists at.
const PERCENTAGE: u64 = 80;

// The lines of a table whose rows are in words, handed over.
fn write_lines<W: Write>(
    rows: &[u64],
    used: usize,
    n: usize,
    out: &mut [u8],
    writer: &mut W,
    before: Handed,
) -> Told
    requires { InRange n used (length rows.now) percentage }
    ensures { Tells out before result (nearly_lines n percentage (objects_of used rows.now) (premises n)) }
{
    let end = nearly_lines::put_lines(out, 0, n, used, rows, PERCENTAGE);
    let handed = handed_output::hand_over(writer, out, 0, end, before);
    Told { end, handed }
}

// The program's whole output for a table file, in a lent buffer and to the writer.
pub fn list_file<W: Write>(file: &[u8], out: &mut [u8; OUTPUT_BYTES], writer: &mut W) -> Told
    ensures { Writes out result (nearly_output file.now) }
{
    let mut rows = [0u64; Session::ROWS * 2];
    let before = Handed {
        bytes: 0,
        whole: true,
    };
    match table_marks::read_marks(file, &mut rows) {
        Err(refusal) => handed_output::write_refusal(refusal, out, writer, before),
        Ok(layout) => write_lines(
            &rows,
            layout.objects,
            layout.attributes,
            out,
            writer,
            before,
        ),
    }
}
