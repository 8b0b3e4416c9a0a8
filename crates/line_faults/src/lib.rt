// The number with which a line of a table file is refused as one of its kind. An object is 01's row, an attribute its property.
#![tactic(auto)]

ghost use Rattle.std.specs.Prelude.{◌≡◌};
ghost use Rattle.line_tests.specs.Tests.{outcome};
ghost use Rattle.line_faults.specs.Faults.{fault};

use table_kinds::Kind;

// A line that is not fine as one of the kind is refused with its fault.
#[tactic(auto, unfolding(crate::specs::Faults::fault))]
pub fn fault_of(line: &[u8], kind: Kind) -> Result<(), u64>
    ensures { result ≡ outcome (fault kind line.now) }
{
    match kind {
        Kind::Letter => line_tests::refuse_unless(line_tests::is_letter(line), 22),
        Kind::Title => line_tests::refuse_unless(line.len() <= line_tests::NAME_BYTES, 25),
        Kind::Objects => line_tests::count_fault(line, 0, session::Session::ROWS),
        Kind::Attributes => line_tests::count_fault(line, 1, session::Session::ATTRIBUTES),
        Kind::Blank => line_tests::refuse_unless(line.is_empty(), 25),
        Kind::Name => line_tests::refuse_unless(line_tests::is_name(line), 26),
        Kind::Marks(n) => line_tests::refuse_unless(line_tests::is_marks(line, n), 27),
    }
}
