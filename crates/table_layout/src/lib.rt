// The layout of Burmeister's table file: its lines in order, and what an opened table keeps. An object is 01's row, an attribute its
// property.
#![tactic(auto)]

ghost use Rattle.std.specs.Prelude.{◌≡◌};
ghost use Rattle.table_layout.specs.Layout.{opened_of};

use session::Refusal;
use table_kinds::Kind;

// What an opened table keeps beside its file: the counts, and where the names of each kind and the marks begin.
#[repr(C)]
#[derive(Clone, Copy, PartialEq, Eq)]
pub struct Layout {
    pub objects: usize,
    pub attributes: usize,
    pub object_names: usize,
    pub attribute_names: usize,
    pub marks: usize,
}

impl Layout {
    // The most bytes of a table file.
    pub const BYTES: usize = 65535;
}

// The bytes of a buffer for a table file: one more than a file may have, so that a longer one is seen to be longer.
pub const FILE_BYTES: usize = Layout::BYTES + 1;

// Opens a table file: what it keeps, or the first line that is refused.
#[tactic(auto, unfolding(crate::specs::Layout::opened_of))]
pub fn open(file: &[u8]) -> Result<Layout, Refusal>
    ensures { result ≡ opened_of file.now }
{
    if Layout::BYTES < file.len() {
        return Err(session::refuse(21, Layout::BYTES));
    }
    let objects = table_header::object_count(file);
    let attributes = table_header::attribute_count(file);
    let to_object_names = table_header::walk_header(file);
    let to_attribute_names = table_walk::walk_lines(file, to_object_names, Kind::Name, objects);
    let to_marks = table_walk::walk_lines(file, to_attribute_names, Kind::Name, attributes);
    let to_end = table_walk::walk_lines(file, to_marks, Kind::Marks(attributes), objects);
    let layout = Layout {
        objects,
        attributes,
        object_names: table_walk::place_of(to_object_names),
        attribute_names: table_walk::place_of(to_attribute_names),
        marks: table_walk::place_of(to_marks),
    };
    table_walk::walk_rest(file, to_end)?;
    Ok(layout)
}
