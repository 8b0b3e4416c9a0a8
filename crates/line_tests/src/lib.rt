// The tests of one line of a table file: the letter, a count, a name, marks, and the number of a line that does not pass.
#![tactic(auto)]

ghost use Rattle.std.specs.Prelude.{◌≡◌, Ok, Err, if◌then◌else◌};
ghost use Rattle.line_tests.specs.Tests.{count_fault, outcome, is_letter, is_name, is_marks};

// The most bytes of a title or a name.
pub const NAME_BYTES: usize = 80;

// A line that is not fine is refused with the number.
pub fn refuse_unless(fine: bool, number: u64) -> Result<(), u64>
    ensures { result ≡ (if fine then Ok tt else Err number) }
{
    if fine { Ok(()) } else { Err(number) }
}

// A line that is no count is refused with 23, and a count that is not from least to most with 24.
pub fn count_fault(line: &[u8], least: usize, most: usize) -> Result<(), u64>
    ensures { result ≡ outcome (count_fault least most line.now) }
{
    refuse_unless(table_counts::is_count(line), 23)?;
    let count = table_counts::count_of(line);
    refuse_unless(least <= count && count <= most, 24)
}

// The line is the letter B.
pub fn is_letter(line: &[u8]) -> bool
    ensures { result ≡ is_letter line.now }
{
    line.len() == 1 && line[0] == b'B'
}

// The line is a name: not empty, and not too long.
pub fn is_name(line: &[u8]) -> bool
    ensures { result ≡ is_name line.now }
{
    0 < line.len() && line.len() <= NAME_BYTES
}

// The line is n marks.
pub fn is_marks(line: &[u8], n: usize) -> bool
    ensures { result ≡ is_marks n line.now }
{
    line.len() == n && line_bytes::all_pass(line, table_bytes::ByteKind::Mark)
}
