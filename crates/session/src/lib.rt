// The session record with its limits, what a call gives back of it, and the refusal: what every call of the library is made with.
#![tactic(auto)]

ghost use Rattle.std.specs.Prelude.{◌≡◌, not};
ghost use Rattle.session.specs.Refusals.{refusal};
ghost use Rattle.session.specs.Records.{same_session};
ghost use Rattle.session.specs.Choice.{chosen};
ghost use Rattle.session.specs.Turns.{kept_with, changed_with};

// An interview between two calls: the number of attributes (01: properties), the rows and rules in use, the current set.
#[repr(C)]
#[derive(Clone, Copy, PartialEq, Eq)]
pub struct Session {
    pub n: usize,
    pub rows: usize,
    pub rules: usize,
    pub current: u64,
}

impl Session {
    // The most attributes, rows and rules that a session has.
    pub const ATTRIBUTES: usize = 64;

    pub const ROWS: usize = 512;

    pub const RULES: usize = 256;
}

// Document 01's number and place. A number and no enum: C reads it as the code of an answer, and the output of the program has it.
#[derive(Clone, Copy)]
pub struct Refusal {
    pub number: u64,
    pub place: usize,
}

// The refusal with this number at this place.
pub fn refuse(number: u64, place: usize) -> Refusal
    ensures { result ≡ refusal number place }
{
    Refusal { number, place }
}

// What a call by value gives back: its answer, the record after it, and whether that differs from the one before. The record is there
// where it stayed too, since the clauses of the calls (`Turns`) speak of it.
#[derive(Clone, Copy)]
pub struct Turn<A> {
    pub answer: A,
    pub session: Session,
    pub changed: bool,
}

impl<A> Turn<A> {
    // A call that leaves the record as it was.
    pub fn kept(session: Session, answer: A) -> Turn<A>
        ensures { result ≡ kept_with session answer }
    {
        Turn {
            answer,
            session,
            changed: false,
        }
    }

    // A call that makes this record of it.
    pub fn changed(session: Session, answer: A) -> Turn<A>
        ensures { result ≡ changed_with session answer }
    {
        Turn {
            answer,
            session,
            changed: true,
        }
    }

    // The record is stored where it changed, and the answer is given on.
    pub fn store(self, session: &mut Session) -> A
        ensures stored { session.new ≡ chosen self.changed self.session session.old }
        ensures answered { result ≡ self.answer }
    {
        if self.changed {
            *session = self.session;
        }
        self.answer
    }
}

// Whether two records differ. It stays beside the derived `!=`: must-fail/current_sets_not_compared is an edit of it.
pub fn differ(a: Session, b: Session) -> bool
    ensures { result ≡ not (same_session a b) }
{
    a != b
}
