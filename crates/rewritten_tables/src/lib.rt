// A table file written anew: what is read of it, with its own names where they stand in it.
#![tactic(auto)]

ghost use Rattle.rewritten_tables.specs.Rewriting.{Rewrites};

use session::{Refusal, Session};

// Writes what is read of a file into a lent output; every byte of it is kept where the file or what was read of it is refused.
pub fn rewrite(file: &[u8], out: &mut [u8]) -> Result<usize, Refusal>
    ensures { Rewrites file out result }
{
    let mut rows = [0u64; Session::ROWS * 2];
    // No `?`: must-fail/refused_file_answered_as_written is an edit of the second arm.
    let layout = match table_marks::read_marks(file, &mut rows) {
        Ok(layout) => layout,
        Err(refusal) => return Err(refusal),
    };
    let names = &file[layout.object_names..];
    table_writer::write_table(layout.attributes, layout.objects, &rows, names, out)
}
