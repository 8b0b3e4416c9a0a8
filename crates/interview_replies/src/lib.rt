// Where an interview of a table is (01: the program), and what one beat of it leaves.
#![tactic(auto)]

ghost use Rattle.std.specs.Prelude.{◌≡◌};
ghost use Rattle.transcript.specs.Core.{counted};

// Where an interview is: the number of attributes, the rows and rules in use, the current set, and how often it has changed.
#[derive(Clone, Copy)]
pub struct Interview {
    pub n: usize,
    pub rows: usize,
    pub rules: usize,
    pub current: u64,
    pub changes: u64,
}

// What one beat leaves: the interview that goes on, or none where it is the last, and the offset behind what it wrote.
#[derive(Clone, Copy)]
pub struct Beaten {
    pub next: Option<Interview>,
    pub at: usize,
}

// One change more.
pub fn count_change(changes: u64) -> u64
    ensures { result ≡ counted changes }
{
    changes.saturating_add(1)
}
