// Answers in three words, a code and two values.
#![tactic(auto)]

ghost use Rattle.std.specs.Prelude.{◌≡◌};
ghost use Rattle.machine.specs.Machine.{refused};
ghost use Rattle.answer_words.specs.Codes.{coded, code_of};

// An answer in three words; a refusal has its own number as its code, and its place as the first value.
#[repr(C)]
#[derive(Clone, Copy)]
pub struct Answer {
    pub code: u64,
    pub first: u64,
    pub second: u64,
}

impl Answer {
    // The codes of the answers that are no refusals: numbers, as C reads them.
    pub const FINISHED: u64 = 100;

    pub const MOVED: u64 = 101;

    pub const ASKED: u64 = 102;

    pub const TAKEN: u64 = 103;

    pub const FOLLOWS: u64 = 104;

    pub const REFUTED: u64 = 105;

    pub const UNREFUTED: u64 = 106;

    pub const UNKNOWN: u64 = 107;

    pub const REFUTES: u64 = 108;

    // The code of a log whose answers have no room.
    pub const NO_ROOM: u64 = 3;
}

// An answer with this code and these values.
pub fn in_words(code: u64, first: u64, second: u64) -> Answer
    ensures { result ≡ coded code first second }
{
    Answer {
        code,
        first,
        second,
    }
}

// A refusal has its own number as its code, and its place as the first value.
impl From<session::Refusal> for Answer {
    ghost from_gives = { λ refusal answer. answer ≡ code_of (refused refusal) };

    fn from(refusal: session::Refusal) -> Answer {
        in_words(refusal.number, refusal.place as u64, 0)
    }
}
