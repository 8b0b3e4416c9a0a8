// What the programs have in common: standard input read to a buffer, and words for a person on standard error.
#![tactic(auto)]

ghost use Rattle.std.specs.Prelude.{MatchResult};
ghost use Rattle.named_files.specs.Counts.{Counts};

use named_files::ReadFailed;
use std::io::{Read, Write};

// The bytes of a buffer with room for every explanation of a refused file; the longest has fewer than 260.
pub const REPORT_BYTES: usize = 512;

// Reads until the buffer is full, the input ends or a read fails: how many bytes then stand at the start of the buffer.
pub fn read_input<R: Read>(reader: &mut R, file: &mut [u8]) -> Result<usize, ReadFailed>
    ensures { MatchResult result (λ size. Counts size file.new) (λ failed. Counts failed.size file.new) }
{
    named_files::read_full(reader, file)
}

// Writes what stands at the start of a report.
// The size stays beside the buffer: must-fail/report_past_its_buffer_said holds that it is tested here.
pub fn say<W: Write>(writer: &mut W, report: &[u8; REPORT_BYTES], size: usize) {
    if let Some(bytes) = report.get(..size) {
        let _ = writer.write_all(bytes);
    }
}
