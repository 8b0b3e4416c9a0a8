// What each refusal number means, and what a person does next, written into a lent buffer.
#![tactic(auto)]

ghost use Rattle.std.specs.Prelude.{◌≡◌};
ghost use Rattle.text.specs.Page.{Puts};
ghost use Rattle.refusal_words.specs.Words.{ends, shown, left, line_number, sentence};

// The line that is sought ends at this byte.
fn line_ends(skip: u64, byte: u8) -> bool
    ensures { result ≡ ends skip byte }
{
    skip == 0 && byte == b'\n'
}

// Writes a byte of the line that is sought.
fn put_shown(out: &mut [u8], at: usize, skip: u64, byte: u8) -> usize
    ensures { Puts out at result (shown skip byte) }
{
    if skip == 0 {
        text::put_byte(out, at, byte)
    } else {
        at
    }
}

// How many lines stand before the one that is sought, behind a byte.
fn lines_left(skip: u64, byte: u8) -> u64
    ensures { result ≡ left skip byte }
{
    if byte == b'\n' {
        skip.saturating_sub(1)
    } else {
        skip
    }
}

// The line of a number, the first being 0.
pub fn put_line(out: &mut [u8], at: usize, lines: &[u8], number: u64) -> usize
    ensures { Puts out at result (line_number number lines.now) }
{
    let mut to = at;
    let mut skip = number;
    for &byte in lines {
        if line_ends(skip, byte) {
            return to;
        }
        to = put_shown(out, to, skip, byte);
        skip = lines_left(skip, byte);
    }
    to
}

// The sentence of a refusal number; nothing for a number that no refusal has.
pub fn put_sentence(out: &mut [u8], at: usize, number: u64) -> usize
    ensures { Puts out at result (sentence number) }
{
    put_line(
        out,
        at,
        b"
The session has no property, or more than 64: open it with 1 to 64.
A number of words is odd or above its limit: lend two words for each of at most 512 rows and 256 rules.
No such place: lend words for all rows, rules and answers in use; ask for numbers below the counts, of the file opened.
A row, a rule or the current set has a property that the session has not: clear the bits past the last property.
A row marks a property both yes and no: take one of the two marks away.
A row contradicts the rules in force: correct the row, or open a session without the rule.
The current set is not closed under the rules in force: open the session again, and make its calls again.
No question stands: make a step first.
The row has a property that the session has not, or marks one both yes and no: correct the row.
The row does not refute the question: mark the whole premise yes, and something of the conclusion no.
This contradicts. A yes: the row named lacks some of it; say no with what it lacks, or correct it. An offered row: correct it.
All places are in use: lend more words for rows or rules.








The file is longer than 65,535 bytes: take a smaller table.
The first line is not a B alone: save the table as plain text in Burmeister's layout.
A count is missing, or not 1 to 4 digits: the third line counts the rows, the fourth the properties.
A count is out of range: a table has at most 512 rows, and 1 to 64 properties.
The title, in the second line, is missing or over 80 bytes; or the fifth line is missing or not empty.
A name is missing, empty or over 80 bytes: write a line for each row, then a line for each property.
A line of marks is missing, has too few or too many, or has a byte other than X, x, . and ?: correct the line.
Something stands behind the last line of marks: take it away, or correct the counts.
A mark is unknown, and complete tables are taken only: write X or a dot for it, or ask an expert in an interview.
The text is longer than 65,535 bytes or than the output: lend more bytes, or take fewer rows or shorter names.
The percentage is above 99: ask for 0 to 99.
No row in use has this number: take one below the number of rows in use.
A yes would become a no, or a no a yes: take the mark out of those offered; a mark once known stays.",
        number,
    )
}
