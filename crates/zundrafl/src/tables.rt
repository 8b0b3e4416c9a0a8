// The table file for C. A call that only reads takes the layout by `&`; an opening stores it where it changed; writing needs none.
ghost use Rattle.context.specs.Parts.{shared};
ghost use Rattle.std.specs.Prelude.{◌≡◌};
ghost use Rattle.table_layout.specs.Layout.{opened_of};
ghost use Rattle.complete_tables.specs.Complete.{opened_complete};
ghost use Rattle.name_spans.specs.Spans.{object_span, attribute_span};
ghost use Rattle.coded_tables.specs.Tables.{OpensTableOn, ReadsMarks, code_of_span};
ghost use Rattle.coded_writing.specs.Writing.{WritesCoded};

// Opens a table file: the layout found there, or the given one where it is refused.
#[unsafe(no_mangle)]
pub extern "C" fn zundrafl_open_table(
    layout: &mut table_layout::Layout,
    file: &[u8],
    answer: &mut answer_words::Answer,
)
    ensures { OpensTableOn (opened_of file.now) layout answer }
{
    let held = *layout;
    let found = coded_tables::open(held, file);
    if found.changed {
        *layout = found.layout;
    }
    *answer = found.answer;
}

// Opens a table file that has to be complete.
#[unsafe(no_mangle)]
pub extern "C" fn zundrafl_open_complete_table(
    layout: &mut table_layout::Layout,
    file: &[u8],
    answer: &mut answer_words::Answer,
)
    ensures { OpensTableOn (opened_complete file.now) layout answer }
{
    let held = *layout;
    let found = coded_tables::open_complete(held, file);
    if found.changed {
        *layout = found.layout;
    }
    *answer = found.answer;
}

// The marks of an opened table, its file and its layout, into lent row words.
#[unsafe(no_mangle)]
pub extern "C" fn zundrafl_read_marks(
    layout: &table_layout::Layout,
    file: &[u8],
    rows: &mut [u64],
    answer: &mut answer_words::Answer,
)
    ensures { ReadsMarks layout.now file rows answer.new }
{
    let held = *layout;
    let made = coded_tables::read_marks(held, file, rows);
    *answer = made;
}

// Where the name of an object stands in the file: its offset and how many bytes it has; 3 where there is no such name.
#[unsafe(no_mangle)]
pub extern "C" fn zundrafl_object_name(
    layout: &table_layout::Layout,
    file: &[u8],
    number: usize,
    answer: &mut answer_words::Answer,
)
    ensures { answer.new ≡ code_of_span (object_span file.now layout.now number) }
{
    *answer = coded_names::object_name(*layout, file, number);
}

// Where the name of an attribute stands, as for objects.
#[unsafe(no_mangle)]
pub extern "C" fn zundrafl_attribute_name(
    layout: &table_layout::Layout,
    file: &[u8],
    number: usize,
    answer: &mut answer_words::Answer,
)
    ensures { answer.new ≡ code_of_span (attribute_span file.now layout.now number) }
{
    *answer = coded_names::attribute_name(*layout, file, number);
}

// Writes n attributes, the rows in use of the row words, and the names lent as lines, as a table file into the lent output.
#[unsafe(no_mangle)]
pub extern "C" fn zundrafl_write_table(
    n: usize,
    used: usize,
    rows: &[u64],
    names: &[u8],
    out: &mut [u8],
    answer: &mut answer_words::Answer,
)
    ensures { WritesCoded n used (shared rows) names out answer.new }
{
    let made = coded_writing::write_table(n, used, rows, names, out);
    *answer = made;
}
