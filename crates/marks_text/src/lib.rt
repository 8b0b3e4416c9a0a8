// A line of marks as text, written into a lent buffer from an offset on; the answer is the offset behind it. An attribute is 01's
// property.
#![tactic(auto)]

ghost use Rattle.std.specs.Prelude.{◌≡◌};
ghost use Rattle.text.specs.Page.{Puts};
ghost use Rattle.marks_text.specs.Marks.{mark_of, marks_text};

// The mark of an attribute, by its digits in the two words of a row.
fn mark_of(yes: u64, no: u64) -> u8
    ensures { result ≡ mark_of yes no }
{
    match (yes, no) {
        (0, 0) => b'?',
        (0, _) => b'.',
        _ => b'X',
    }
}

// The marks of the first n attributes of a row, a byte for each.
pub fn put_marks(out: &mut [u8], at: usize, n: usize, yes: u64, no: u64) -> usize
    ensures { Puts out at result (marks_text n yes no) }
{
    let mut to = at;
    let mut left_yes = yes;
    let mut left_no = no;
    for _ in 0..n {
        to = text::put_byte(out, to, mark_of(left_yes % 2, left_no % 2));
        left_yes /= 2;
        left_no /= 2;
    }
    to
}
