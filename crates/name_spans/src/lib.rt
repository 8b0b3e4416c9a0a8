// Where the names of a table file stand in it, by number. An object is 01's row, an attribute its property.
#![tactic(auto)]

ghost use Rattle.std.specs.Prelude.{◌≡◌};
ghost use Rattle.found_layout.specs.Found.{finds};
ghost use Rattle.table_lines.specs.Lines.{skipped};
ghost use Rattle.name_spans.specs.Spans.{span_from, object_span, attribute_span};

use table_layout::Layout;

// A part of the file: where it begins, and how many bytes it has.
#[derive(Clone, Copy)]
pub struct Span {
    pub at: usize,
    pub size: usize,
}

// Where the line begins that is count lines further on.
fn skip(file: &[u8], start: usize, count: usize) -> usize
    ensures { result ≡ skipped count file.now start }
{
    let mut at = start;
    for _ in 0..count {
        at = line_ends::next_at(file, at);
    }
    at
}

// Where in the file the name with this number stands, of count names that begin at start; nowhere, with no bytes, for a number past
// the last and for a layout that is not what reading the file finds.
// No Option: `span_from` of specs/ and the answers in C speak of the offset 0 with no bytes.
fn span_of(file: &[u8], layout: Layout, count: usize, start: usize, number: usize) -> Span
    ensures { result ≡ span_from (finds file.now layout) count start number file.now }
{
    if !found_layout::is_found(file, layout) || count <= number {
        return Span { at: 0, size: 0 };
    }
    let at = skip(file, start, number);
    let line = line_ends::line_at(file, at);
    Span {
        at,
        size: line.size,
    }
}

// Where the name of an object stands in the file: its offset and how many bytes it has, none where there is no such name.
pub fn object_span(file: &[u8], layout: Layout, number: usize) -> Span
    ensures { result ≡ object_span file.now layout number }
{
    span_of(file, layout, layout.objects, layout.object_names, number)
}

// Where the name of an attribute stands, as for objects: document 01 names both.
pub fn attribute_span(file: &[u8], layout: Layout, number: usize) -> Span
    ensures { result ≡ attribute_span file.now layout number }
{
    span_of(
        file,
        layout,
        layout.attributes,
        layout.attribute_names,
        number,
    )
}
