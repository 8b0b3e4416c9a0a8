// A line of a file, as its length and the offset of the next; the definitions and laws of lines stand in specs/.
#![tactic(auto)]

// A line: how many bytes it has, and how many there are up to where the next one begins.
#[derive(Clone, Copy)]
pub struct Line {
    pub size: usize,
    pub step: usize,
}
