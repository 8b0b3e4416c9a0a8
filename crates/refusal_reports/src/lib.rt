// Why a table file was refused, in words: the line and what was expected there, and the sentence of the refusal.
#![tactic(auto)]

ghost use Rattle.text.specs.Page.{Puts};
ghost use Rattle.refusal_reports.specs.Reports.{line_text, sentence_line};
ghost use Rattle.refusal_reports.specs.Reports.{report, explanation, explanation_of};
ghost use Rattle.table_layout.specs.Layout.{opened_of};

use session::Refusal;
use table_layout::Layout;

// `line N: `
fn put_line_number(out: &mut [u8], at: usize, line: u64) -> usize
    ensures { Puts out at result (line_text line) }
{
    let named = text::put_bytes(out, at, b"line ");
    let numbered = text::put_number(out, named, line);
    text::put_bytes(out, numbered, b": ")
}

// The sentence of a refusal, as a line.
pub fn put_sentence_line(out: &mut [u8], at: usize, number: u64) -> usize
    ensures { Puts out at result (sentence_line number) }
{
    let said = refusal_words::put_sentence(out, at, number);
    text::put_byte(out, said, b'\n')
}

// The report of a refusal: two lines.
pub fn put_report(out: &mut [u8], at: usize, file: &[u8], number: u64, place: usize) -> usize
    ensures { Puts out at result (report file.now number place) }
{
    let numbered = put_line_number(out, at, line_numbers::line_number(file, place) as u64);
    let expected = expected_phrases::put_expectation(out, numbered, file, number);
    let ended = text::put_byte(out, expected, b'\n');
    put_sentence_line(out, ended, number)
}

// Why a file is refused, by what it opened as; nothing where it is not.
fn put_why(out: &mut [u8], at: usize, file: &[u8], opened: Result<Layout, Refusal>) -> usize
    ensures { Puts out at result (explanation_of file.now opened) }
{
    match opened {
        Ok(_) => at,
        Err(refusal) => put_report(out, at, file, refusal.number, refusal.place),
    }
}

// Why a file is refused where a complete table is asked for; nothing where it is not.
pub fn put_explanation(out: &mut [u8], at: usize, file: &[u8]) -> usize
    ensures { Puts out at result (explanation file.now) }
{
    put_why(out, at, file, complete_tables::open_complete(file))
}

// Why a file is refused where unknown marks pass.
pub fn put_opened(out: &mut [u8], at: usize, file: &[u8]) -> usize
    ensures { Puts out at result (explanation_of file.now (opened_of file.now)) }
{
    put_why(out, at, file, table_layout::open(file))
}
