// Whether a table file is complete: no mark is unknown.
#![tactic(auto)]

ghost use Rattle.std.specs.Prelude.{◌≡◌, Ok};
ghost use Rattle.table_layout.specs.Layout.{opened_of};
ghost use Rattle.complete_tables.specs.Complete.{complete_of, opened_complete};

use session::Refusal;
use table_layout::Layout;

// The first of the lines of marks of an opened table that has an unknown mark is refused with 29.
fn complete_from(file: &[u8], layout: Layout) -> Result<Layout, Refusal>
    requires { opened_of file.now ≡ Ok layout }
    ensures { result ≡ complete_of file.now (Ok layout) }
{
    let mut at = layout.marks;
    for _ in 0..layout.objects {
        let end = at + layout.attributes;
        if !line_bytes::all_pass(&file[at..end], table_bytes::ByteKind::Known) {
            return Err(session::refuse(29, at));
        }
        at = line_ends::next_at(file, end);
    }
    Ok(layout)
}

// Opens a table file that has to be complete: 29 comes after 21 to 28 have passed for the whole file.
pub fn open_complete(file: &[u8]) -> Result<Layout, Refusal>
    ensures { result ≡ opened_complete file.now }
{
    let layout = table_layout::open(file)?;
    complete_from(file, layout)
}
