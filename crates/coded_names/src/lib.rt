// Where a name stands in a table file, with the answer in three words.
#![tactic(auto)]

ghost use Rattle.std.specs.Prelude.{◌≡◌};
ghost use Rattle.name_spans.specs.Spans.{object_span, attribute_span};
ghost use Rattle.coded_tables.specs.Tables.{code_of_span};

// A function and no `From`: neither type is this crate's.
fn answer_of_span(span: name_spans::Span) -> answer_words::Answer
    ensures { result ≡ code_of_span span }
{
    if span.size == 0 {
        return answer_words::in_words(answer_words::Answer::NO_ROOM, 0, 0);
    }
    answer_words::in_words(
        answer_words::Answer::TAKEN,
        span.at as u64,
        span.size as u64,
    )
}

// Where the name of an object stands in the file: its offset and how many bytes it has; 3 where there is no such name.
pub fn object_name(layout: table_layout::Layout, file: &[u8], number: usize) -> answer_words::Answer
    ensures { result ≡ code_of_span (object_span file.now layout number) }
{
    answer_of_span(name_spans::object_span(file, layout, number))
}

// Where the name of an attribute stands, as for objects.
pub fn attribute_name(
    layout: table_layout::Layout,
    file: &[u8],
    number: usize,
) -> answer_words::Answer
    ensures { result ≡ code_of_span (attribute_span file.now layout number) }
{
    answer_of_span(name_spans::attribute_span(file, layout, number))
}
