// The count lines of a table file: 1 to 4 digits, and the count that they are.
#![tactic(auto)]

ghost use Rattle.std.specs.Prelude.{◌≡◌, true, ◌≤◌, length};
ghost use Rattle.table_bytes.specs.Bytes.{is_digit};
ghost use Rattle.line_bytes.specs.Everywhere.{everywhere};
ghost use Rattle.table_counts.specs.Counts.{decimal_from, is_count, count_of};

// The most digits of a count.
const MOST_DIGITS: usize = 4;

// 1 to 4 digits.
#[tactic(auto, unfolding(crate::specs::Counts::is_count))]
pub fn is_count(line: &[u8]) -> bool
    ensures { result ≡ is_count line.now }
{
    if line.is_empty() {
        return false;
    }
    line.len() <= MOST_DIGITS && line_bytes::all_pass(line, table_bytes::ByteKind::Digit)
}

// The number of at most 4 digits.
fn decimal(line: &[u8]) -> usize
    requires { (length line.now ≤ 4) × (everywhere is_digit line.now ≡ true) }
    ensures { result ≡ decimal_from 0 line.now }
{
    let mut n = 0;
    for digit in line {
        n = n * 10 + usize::from(*digit - b'0');
    }
    n
}

// The count of a count line; 0 where it is none.
#[tactic(auto, using(crate::proofs::Counts::Laws::counted), unfolding(crate::specs::Counts::count_of))]
pub fn count_of(line: &[u8]) -> usize
    ensures { result ≡ count_of line.now }
{
    if is_count(line) { decimal(line) } else { 0 }
}
