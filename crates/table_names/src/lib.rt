// The names of a table file by number, as the file's own bytes. An object is 01's row, an attribute its property.
#![tactic(auto)]

ghost use Rattle.std.specs.Prelude.{◌+◌, ◌≤◌, length};
ghost use Rattle.name_spans.specs.Spans.{object_span, attribute_span};
ghost use Rattle.table_names.specs.Names.{Named};

use name_spans::Span;
use session::Refusal;
use table_layout::Layout;

// The name that stands at a part of the file; refusal 3 where the part has no bytes, which no name is without.
fn name_at(file: &[u8], span: Span) -> Result<&[u8], Refusal>
    requires { span.at + span.size ≤ length file.now }
    ensures { Named span file.now result }
{
    if span.size == 0 {
        return Err(session::refuse(3, 0));
    }
    let end = span.at + span.size;
    Ok(&file[span.at..end])
}

// The name of an object by its number, as the file's own bytes; 3 where there is no such name.
pub fn object_name(file: &[u8], layout: Layout, number: usize) -> Result<&[u8], Refusal>
    ensures { Named (object_span file.now layout number) file.now result }
{
    name_at(file, name_spans::object_span(file, layout, number))
}

// The name of an attribute by its number, as for objects.
pub fn attribute_name(file: &[u8], layout: Layout, number: usize) -> Result<&[u8], Refusal>
    ensures { Named (attribute_span file.now layout number) file.now result }
{
    name_at(file, name_spans::attribute_span(file, layout, number))
}
