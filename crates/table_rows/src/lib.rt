// The row (an object) of a line of marks: its two words.
#![tactic(auto)]

ghost use Rattle.std.specs.Prelude.{◌≡◌, ◌≤◌, length, take};
ghost use Rattle.context.specs.Objects.{object};
ghost use Rattle.session.specs.Limits.{most_attributes};
ghost use Rattle.table_rows.specs.Rows.{row_of};

// The two words of a row.
#[derive(Clone, Copy)]
pub struct Row {
    pub yes: u64,
    pub no: u64,
}

// The row of a line that has a mark for each attribute.
fn row_of_marks(line: &[u8]) -> Row
    requires { length line.now ≤ most_attributes }
    ensures { object result.yes result.no ≡ row_of line.now }
{
    let mut yes = 0;
    let mut no = 0;
    for mark in line.iter().rev() {
        yes = yes * 2 + u64::from(table_bytes::is_yes(*mark));
        no = no * 2 + u64::from(table_bytes::is_no(*mark));
    }
    Row { yes, no }
}

// The row of a line of marks; bytes past the most attributes are not read.
#[tactic(auto, using(std::proofs::lemmas::List::take_min))]
pub fn row_of(line: &[u8]) -> Row
    ensures { object result.yes result.no ≡ row_of (take most_attributes line.now) }
{
    row_of_marks(&line[..session::Session::ATTRIBUTES.min(line.len())])
}
