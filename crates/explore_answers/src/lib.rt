// What the program explore answers to the bytes that it has read (01: the program): its output, and beside it why a file is refused.
#![tactic(auto)]

ghost use Rattle.std.specs.Prelude.{◌≡◌, ◌&&◌, ◌-◌, take, get_or, eqb, leb};
ghost use Rattle.text.specs.Page.{Puts};
ghost use Rattle.refusal_reports.specs.Reports.{explanation};
ghost use Rattle.explore_answers.specs.Answers.{Answers};

use handed_output::Told;
use session::Session;
use standard_streams::REPORT_BYTES;
use std::io::Write;
use table_interview::OUTPUT_BYTES;
use table_layout::FILE_BYTES;

// The output for the first so many bytes of the buffer, with all places of a session lent. What is handed over to be written, line by
// line, is what the buffer holds in the end.
// The size stays beside the buffer: `Answers` (its clause `buffer`) says that the buffer has `FILE_BYTES`.
pub fn answer<W: Write>(
    file: &[u8; FILE_BYTES],
    size: usize,
    out: &mut [u8; OUTPUT_BYTES],
    writer: &mut W,
) -> Told
    ensures { Answers file size out result }
{
    let bytes: &[u8] = file;
    let end = size.min(bytes.len());
    table_interview::hold(&bytes[..end], Session::ROWS, Session::RULES, out, writer)
}

// Why the file in the first so many bytes of the buffer is refused; nothing where it is a complete table. The buffer and the size, as of
// `answer`: the clause says which bytes are read, whatever the program lends.
pub fn explain(file: &[u8; FILE_BYTES], size: usize, report: &mut [u8; REPORT_BYTES]) -> usize
    ensures { Puts report 0 result (explanation (take size file.now)) }
{
    let bytes: &[u8] = file;
    let end = size.min(bytes.len());
    refusal_reports::put_explanation(report, 0, &bytes[..end])
}

// The output ends in the line `E 12 0`: an E seven bytes before the end. The E of an END line stands further from it.
pub fn ran_out(out: &[u8; OUTPUT_BYTES], end: usize) -> bool
    ensures { result ≡ (leb 7 end && eqb (get_or out.now (end - 7) 0) 69) }
{
    if end < 7 {
        return false;
    }
    file_mistakes::byte_at(out, end - 7) == b'E'
}
