// A layout that is said to be a file's: whether reading the file finds it.
#![tactic(auto)]

ghost use Rattle.std.specs.Prelude.{◌≡◌};
ghost use Rattle.table_layout.specs.Layout.{opened_of};
ghost use Rattle.found_layout.specs.Found.{finds, opened_as};

use session::Refusal;
use table_layout::Layout;

// Reading the file finds this layout.
pub fn is_found(file: &[u8], layout: Layout) -> bool
    ensures { result ≡ finds file.now layout }
{
    table_layout::open(file).is_ok_and(|found| found == layout)
}

// Opens the file of an opened table: 3 comes after 21 to 28 for a layout that is not the one found.
pub fn open_as(file: &[u8], layout: Layout) -> Result<Layout, Refusal>
    ensures { result ≡ opened_as layout (opened_of file.now) }
{
    let found = table_layout::open(file)?;
    if found == layout {
        Ok(found)
    } else {
        Err(session::refuse(3, 0))
    }
}
