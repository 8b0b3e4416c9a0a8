// The lines of the program's output that have a rule, each written into a lent buffer from an offset on; the answer is the offset
// behind it.
#![tactic(auto)]

ghost use Rattle.std.specs.Prelude.{[], ◌∷◌, ◌++◌};
ghost use Rattle.implication.specs.Closure.{implication};
ghost use Rattle.text.specs.Page.{Puts};
ghost use Rattle.output_lines.specs.Lines.{rule_text, yes_line, no_line, whole_rules, list_lines};

// Premise and conclusion, between the words in front of them and those behind.
pub fn put_rule(
    out: &mut [u8],
    at: usize,
    n: usize,
    front: &[u8],
    premise: u64,
    conclusion: u64,
    behind: &[u8],
) -> usize
    ensures { Puts out at result (front.now ++ (rule_text n (implication premise conclusion) ++ behind.now)) }
{
    let fronted = text::put_bytes(out, at, front);
    let premised = text::put_set(out, fronted, n, premise);
    let spaced = text::put_byte(out, premised, b' ');
    let concluded = text::put_set(out, spaced, n, conclusion);
    text::put_bytes(out, concluded, behind)
}

// The line of a question answered yes.
pub fn put_yes(out: &mut [u8], at: usize, n: usize, premise: u64, conclusion: u64) -> usize
    ensures { Puts out at result (yes_line n (implication premise conclusion)) }
{
    put_rule(out, at, n, b"Q ", premise, conclusion, b" yes\n")
}

// The line of a question answered no, with the row that refutes it.
pub fn put_no(out: &mut [u8], at: usize, n: usize, premise: u64, conclusion: u64, row: u64) -> usize
    ensures { Puts out at result (no_line n (implication premise conclusion) row) }
{
    let refuted = put_rule(out, at, n, b"Q ", premise, conclusion, b" no ");
    closing_lines::put_number_then(out, refuted, row, b'\n')
}

// The line of one rule of the list: as of a question, `put_rule` with other words.
fn put_listed(out: &mut [u8], at: usize, n: usize, premise: u64, conclusion: u64) -> usize
    ensures { Puts out at result (list_lines n (implication premise conclusion ∷ [])) }
{
    put_rule(out, at, n, b"L ", premise, conclusion, b"\n")
}

// The lines of the list's first count rules, as far as the slice has them whole. A loop of its own, as `table_text::put_rows`: a closure
// that writes into the lent buffer would be longer than the loop.
pub fn put_list(out: &mut [u8], at: usize, n: usize, list: &[u64], count: usize) -> usize
    ensures { Puts out at result (list_lines n (whole_rules count list.now)) }
{
    let (rules, _) = list.as_chunks::<2>();
    let mut to = at;
    for &[premise, conclusion] in rules.iter().take(count) {
        to = put_listed(out, to, n, premise, conclusion);
    }
    to
}
