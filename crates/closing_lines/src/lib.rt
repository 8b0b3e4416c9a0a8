// The line that closes the program's output, END with its totals or E with a refusal, written into a lent buffer from an offset on; the
// answer is the offset behind it.
#![tactic(auto)]

ghost use Rattle.std.specs.Prelude.{[], ◌∷◌, ◌++◌};
ghost use Rattle.session.specs.Refusals.{refusal};
ghost use Rattle.text.specs.Page.{Puts};
ghost use Rattle.text.specs.Text.{number_text};
ghost use Rattle.closing_lines.specs.Closing.{end_line, refusal_line};

// A number, and a byte behind it.
pub fn put_number_then(out: &mut [u8], at: usize, number: u64, byte: u8) -> usize
    ensures { Puts out at result (number_text number ++ (byte ∷ [])) }
{
    let numbered = text::put_number(out, at, number);
    text::put_byte(out, numbered, byte)
}

// The line that ends the output: rules, rows in use, changes of the current set.
pub fn put_end(out: &mut [u8], at: usize, rules: u64, rows: u64, changes: u64) -> usize
    ensures { Puts out at result (end_line rules rows changes) }
{
    let named = text::put_bytes(out, at, b"END ");
    let listed = put_number_then(out, named, rules, b' ');
    let used = put_number_then(out, listed, rows, b' ');
    put_number_then(out, used, changes, b'\n')
}

// The line of a refusal.
pub fn put_refusal(out: &mut [u8], at: usize, number: u64, place: u64) -> usize
    ensures { Puts out at result (refusal_line (refusal number place)) }
{
    let named = text::put_bytes(out, at, b"E ");
    let numbered = put_number_then(out, named, number, b' ');
    put_number_then(out, numbered, place, b'\n')
}
