// The first five lines of a table file, and the counts in its third and fourth line. An object is 01's row, an attribute its property.
#![tactic(auto)]

ghost use Rattle.std.specs.Prelude.{◌≡◌, ◌≤◌, length};
ghost use Rattle.table_lines.specs.Lines.{bytes_at};
ghost use Rattle.table_counts.specs.Counts.{count_of};
ghost use Rattle.line_walk.specs.Walk.{walk};
ghost use Rattle.table_header.specs.Header.{object_count, attribute_count, header};

use session::Refusal;
use table_kinds::Kind;

// The first five lines.
pub fn walk_header(file: &[u8]) -> Result<usize, Refusal>
    ensures { result ≡ walk header file.now 0 }
{
    let title_at = line_walk::walk_line(file, 0, Kind::Letter)?;
    let objects_at = line_walk::walk_line(file, title_at, Kind::Title)?;
    let attributes_at = line_walk::walk_line(file, objects_at, Kind::Objects)?;
    let blank_at = line_walk::walk_line(file, attributes_at, Kind::Attributes)?;
    line_walk::walk_line(file, blank_at, Kind::Blank)
}

// The count of the line at an offset; 0 where it is no count, as `count_of` of specs/ says.
fn count_at(file: &[u8], at: usize) -> usize
    requires { at ≤ length file.now }
    ensures { result ≡ count_of (bytes_at file.now at) }
{
    let line = line_ends::line_at(file, at);
    let end = at + line.size;
    table_counts::count_of(&file[at..end])
}

// The count of objects, in the third line.
pub fn object_count(file: &[u8]) -> usize
    ensures { result ≡ object_count file.now }
{
    let title_at = line_ends::next_at(file, 0);
    count_at(file, line_ends::next_at(file, title_at))
}

// The count of attributes, in the fourth line.
pub fn attribute_count(file: &[u8]) -> usize
    ensures { result ≡ attribute_count file.now }
{
    let title_at = line_ends::next_at(file, 0);
    let objects_at = line_ends::next_at(file, title_at);
    count_at(file, line_ends::next_at(file, objects_at))
}
