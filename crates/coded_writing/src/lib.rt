// The writer of table files with its answer in three words.
#![tactic(auto)]

ghost use Rattle.context.specs.Parts.{shared};
ghost use Rattle.coded_writing.specs.Writing.{WritesCoded};

use answer_words::Answer;

// Writes a table file into a lent output: the number of bytes, or 1 to 5, 26, 30.
pub fn write_table(n: usize, used: usize, rows: &[u64], names: &[u8], out: &mut [u8]) -> Answer
    ensures { WritesCoded n used (shared rows) names out result }
{
    match table_writer::write_table(n, used, rows, names, out) {
        Ok(size) => answer_words::in_words(Answer::TAKEN, size as u64, 0),
        Err(refusal) => Answer::from(refusal),
    }
}
