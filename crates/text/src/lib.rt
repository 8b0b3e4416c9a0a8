// Bytes, numbers and sets as text, each written into a lent buffer from an offset on; the answer is the offset behind it.
// What does not fit is dropped, so that every function is total.
#![tactic(auto)]

ghost use Rattle.std.specs.Prelude.{◌≡◌, [], ◌∷◌, length};
ghost use Rattle.text.specs.Text.{number_text, mark_text, set_text};
ghost use Rattle.text.specs.Text.Digits.{Leads};
ghost use Rattle.text.specs.Page.{Puts};

// One byte.
pub fn put_byte(out: &mut [u8], at: usize, byte: u8) -> usize
    ensures { Puts out at result (byte ∷ []) }
{
    if at < out.len() {
        out[at] = byte;
        return at + 1;
    }
    at
}

// Bytes, in their order.
pub fn put_bytes(out: &mut [u8], at: usize, bytes: &[u8]) -> usize
    ensures { Puts out at result bytes.now }
{
    let mut to = at;
    for byte in bytes {
        to = put_byte(out, to, *byte);
    }
    to
}

// The byte of an attribute: 1 is a member, 0 is none.
fn mark_of(digit: u64) -> u8
    ensures { result ≡ mark_text digit }
{
    if digit == 0 { b'.' } else { b'X' }
}

// The set among the first n attributes, a byte for each.
pub fn put_set(out: &mut [u8], at: usize, n: usize, set: u64) -> usize
    ensures { Puts out at result (set_text n set) }
{
    let mut to = at;
    let mut left = set;
    for _ in 0..n {
        to = put_byte(out, to, mark_of(left % 2));
        left /= 2;
    }
    to
}

// The largest power of ten that is not above n; 1 for 0.
fn power_of(n: u64) -> u64
    ensures { Leads n result }
{
    let mut power = 1;
    while power <= n / 10 {
        power *= 10;
    }
    power
}

// A number in decimal digits, the first one first.
pub fn put_number(out: &mut [u8], at: usize, n: u64) -> usize
    ensures { Puts out at result (number_text n) }
{
    let mut to = at;
    let mut power = power_of(n);
    while power > 0 {
        to = put_byte(out, to, b'0' + (n / power % 10) as u8);
        power /= 10;
    }
    to
}

// How many decimal digits a number has.
pub fn size_of_number(n: u64) -> usize
    ensures { result ≡ length (number_text n) }
{
    let mut left = n;
    let mut size = 1;
    while 10 <= left {
        left /= 10;
        size += 1;
    }
    size
}
