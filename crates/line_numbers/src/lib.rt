// The number of the line of a file that an offset lies in.
#![tactic(auto)]

ghost use Rattle.std.specs.Prelude.{◌≡◌};
ghost use Rattle.line_numbers.specs.Numbers.{number_of_line};

// The number of the line that an offset lies in, the first being 1; the end of the file lies in the line that is missing there.
pub fn line_number(file: &[u8], place: usize) -> usize
    ensures { result ≡ number_of_line file.now place }
{
    let mut number = 1;
    let mut at = 0;
    while at < file.len() {
        let next = line_ends::next_at(file, at);
        if place < next {
            return number;
        }
        number += 1;
        at = next;
    }
    number
}
