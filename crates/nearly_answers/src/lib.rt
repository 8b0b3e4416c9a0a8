// What the program nearly answers to the bytes that it has read (02, request 3/13): its output, and beside it why a file is refused.
#![tactic(auto)]

ghost use Rattle.std.specs.Prelude.{take};
ghost use Rattle.table_layout.specs.Layout.{opened_of};
ghost use Rattle.text.specs.Page.{Puts};
ghost use Rattle.refusal_reports.specs.Reports.{explanation_of};
ghost use Rattle.nearly_output.specs.Output.{Answers};

use handed_output::Told;
use nearly_output::OUTPUT_BYTES;
use standard_streams::REPORT_BYTES;
use std::io::Write;
use table_layout::FILE_BYTES;

// The output for the first so many bytes of the buffer.
// The size stays beside the buffer: `Answers` (its clause `buffer`) says that the buffer has `FILE_BYTES`.
pub fn answer<W: Write>(
    file: &[u8; FILE_BYTES],
    size: usize,
    out: &mut [u8; OUTPUT_BYTES],
    writer: &mut W,
) -> Told
    ensures { Answers file size out result }
{
    let bytes: &[u8] = file;
    let end = size.min(bytes.len());
    nearly_output::list_file(&bytes[..end], out, writer)
}

// Why the file in the first so many bytes of the buffer is refused; nothing where it is a table. The buffer and the size, as of
// `answer`: the clause says which bytes are read, whatever the program lends.
pub fn explain(file: &[u8; FILE_BYTES], size: usize, report: &mut [u8; REPORT_BYTES]) -> usize
    ensures { Puts report 0 result (explanation_of (take size file.now) (opened_of (take size file.now))) }
{
    let bytes: &[u8] = file;
    let end = size.min(bytes.len());
    refusal_reports::put_opened(report, 0, &bytes[..end])
}
