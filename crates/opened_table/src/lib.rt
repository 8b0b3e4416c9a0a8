// An opened table as a view: the file that it was opened from and what reading it found (01, "The table file").
#![tactic(auto)]

ghost use Rattle.std.specs.Prelude.{◌≡◌, length};
ghost use Rattle.table_layout.specs.Layout.{opened_of};
ghost use Rattle.mark_reading.specs.Marks.{reading_as, words_of_rows};
ghost use Rattle.opened_table.specs.Views.{Opens, OpensView, ObjectNamed, AttributeNamed};

use answer_words::Answer;
use session::Refusal;
use table_layout::Layout;

// The file, the counts, and where the names of each kind and the marks begin.
#[derive(Clone, Copy)]
pub struct Table<'a> {
    pub file: &'a [u8],
    pub layout: Layout,
}

// What opening a file answers, and the layout of its view.
// Not a Result: a refused file has a view too, with the layout of no file (`Opens`).
#[derive(Clone, Copy)]
pub struct Opening {
    pub answer: Answer,
    pub layout: Layout,
}

// Reads a table file for its view: the answer, and its layout or, where it is refused, that of no file.
fn find_layout(file: &[u8]) -> Opening
    ensures { Opens (opened_of file.now) result.answer result.layout }
{
    let none = Layout {
        objects: 0,
        attributes: 0,
        object_names: 0,
        attribute_names: 0,
        marks: 0,
    };
    let coded_tables::Found { answer, layout, .. } = coded_tables::open(none, file);
    Opening { answer, layout }
}

// Opens a table file: its view; the answer is put where the caller says. The view of a file that is refused has no rows and no
// attributes, and so no names.
// Not a Result: refused-objects and refused-attributes hold of the view of a file that is refused.
pub fn open<'a>(file: &'a [u8], answer: &mut Answer) -> Table<'a>
    ensures { OpensView file.entry answer.new result }
{
    let opening = find_layout(file);
    *answer = opening.answer;
    Table {
        file,
        layout: opening.layout,
    }
}

// The name of an object by its number, as the file's own bytes; 3 where there is no such name.
pub fn object_name<'a>(table: Table<'a>, number: usize) -> Result<&'a [u8], Refusal>
    ensures { ObjectNamed table.entry number result }
{
    table_names::object_name(table.file, table.layout, number)
}

// The name of an attribute by its number, as for objects.
pub fn attribute_name<'a>(table: Table<'a>, number: usize) -> Result<&'a [u8], Refusal>
    ensures { AttributeNamed table.entry number result }
{
    table_names::attribute_name(table.file, table.layout, number)
}

// The marks of a table, into lent row words; nothing is written unless everything passed.
pub fn read_marks<'a>(table: Table<'a>, rows: &mut [u64]) -> Result<Layout, Refusal>
    ensures answer { result ≡ reading_as table.entry.layout (length rows.old) table.entry.file.now }
    ensures written { rows.new ≡ words_of_rows result table.entry.file.now rows.old }
{
    table_marks::read_marks_of(table.file, table.layout, rows)
}
