// The bytes of a table file: digits and marks.
#![tactic(auto)]

ghost use Rattle.std.specs.Prelude.{◌≡◌};
ghost use Rattle.table_bytes.specs.Bytes.{is_digit, is_yes, is_no, is_unknown, is_mark, passes};

// What is asked of a byte: to be a digit, a mark, or no unknown mark.
#[derive(Clone, Copy)]
pub enum ByteKind {
    Digit,
    Mark,
    Known,
}

fn is_digit(b: u8) -> bool
    ensures { result ≡ is_digit b }
{
    matches!(b, b'0'..=b'9')
}

pub fn is_yes(b: u8) -> bool
    ensures { result ≡ is_yes b }
{
    matches!(b, b'X' | b'x')
}

pub fn is_no(b: u8) -> bool
    ensures { result ≡ is_no b }
{
    matches!(b, b'.')
}

fn is_unknown(b: u8) -> bool
    ensures { result ≡ is_unknown b }
{
    matches!(b, b'?')
}

// A case for each: X and x are yes, . is no, ? is unknown.
fn is_mark(b: u8) -> bool
    ensures { result ≡ is_mark b }
{
    matches!(b, b'X' | b'x' | b'.' | b'?')
}

// The byte is what is asked of it.
pub fn passes_as(kind: ByteKind, b: u8) -> bool
    ensures { result ≡ passes kind b }
{
    match kind {
        ByteKind::Digit => is_digit(b),
        ByteKind::Mark => is_mark(b),
        ByteKind::Known => !is_unknown(b),
    }
}
