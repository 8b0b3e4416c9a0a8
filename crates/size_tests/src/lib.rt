// The tests of checks 1 to 3 of document 01: of the number of attributes, the lent lengths, and the rows and rules in use.
#![tactic(auto)]

ghost use Rattle.std.specs.Prelude.{◌≡◌, ◌||◌, ◌/◌, eqb, ltb};
ghost use Rattle.session.specs.Limits.{most_attributes, most_objects, most_implications, bad_length};

// A lent length is odd, or above its limit.
#[tactic(auto, unfolding(session::specs::Limits::bad_length))]
pub fn bad_length(words: usize, most: usize) -> bool
    ensures { result ≡ bad_length most words }
{
    words % 2 != 0 || most < words / 2
}

// Some lent length is bad.
pub fn bad_lengths(rows: usize, list: usize, background: usize) -> bool
    ensures { result ≡ (bad_length most_objects rows || (bad_length most_implications list || bad_length most_implications background)) }
{
    bad_length(rows, session::Session::ROWS)
        || bad_length(list, session::Session::RULES)
        || bad_length(background, session::Session::RULES)
}

// No attributes, or more than a session has.
pub fn bad_count(n: usize) -> bool
    ensures { result ≡ (eqb n 0 || ltb most_attributes n) }
{
    n == 0 || session::Session::ATTRIBUTES < n
}

// More rows or rules in use than the lent words have places for.
pub fn bad_places(rows: usize, used: usize, list: usize, rules: usize) -> bool
    ensures { result ≡ (ltb (rows / 2) used || ltb (list / 2) rules) }
{
    rows / 2 < used || list / 2 < rules
}
