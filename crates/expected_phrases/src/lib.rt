// What was expected where a table file was refused, in words: how many marks a line has, for 27; the phrase of the refusal's number;
// for 22 the mistake that the file looks like.
#![tactic(auto)]

ghost use Rattle.text.specs.Page.{Puts};
ghost use Rattle.expected_phrases.specs.Expected.{phrase, marks_text, mistake_text, expected_text};

// What was expected where a refusal of this number stands, the first with a phrase being 21; nothing for another number.
pub fn put_expected(out: &mut [u8], at: usize, number: u64) -> usize
    ensures { Puts out at result (phrase number) }
{
    refusal_words::put_line(
        out,
        at,
        b"
no more than 65,535 bytes expected
B alone expected
1 to 4 digits expected
at most 512 rows, 1 to 64 properties expected
a title of at most 80 bytes, an empty line 5 expected
a name of 1 to 80 bytes expected
marks out of X x . ? expected
the end of the file expected
marks out of X x . expected",
        number.saturating_sub(20),
    )
}

// How many marks a line has, for 27.
fn put_marks(out: &mut [u8], at: usize, file: &[u8], number: u64) -> usize
    ensures { Puts out at result (marks_text file.now number) }
{
    if number == 27 {
        let counted = text::put_number(out, at, table_header::attribute_count(file) as u64);
        text::put_byte(out, counted, b' ')
    } else {
        at
    }
}

// The mistake that the file looks like, for 22.
fn put_looks(out: &mut [u8], at: usize, file: &[u8], number: u64) -> usize
    ensures { Puts out at result (mistake_text file.now number) }
{
    if number == 22 {
        let parted = text::put_bytes(out, at, b"; ");
        file_mistakes::put_mistake(out, parted, file_mistakes::looks_like(file))
    } else {
        at
    }
}

// What was expected, with all that is said of it.
pub fn put_expectation(out: &mut [u8], at: usize, file: &[u8], number: u64) -> usize
    ensures { Puts out at result (expected_text file.now number) }
{
    let counted = put_marks(out, at, file, number);
    let expected = put_expected(out, counted, number);
    put_looks(out, expected, file, number)
}
