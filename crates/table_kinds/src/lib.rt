// The kinds of lines of a table file, and the number with which a missing one is refused. An object is 01's row, an attribute its
// property.
#![tactic(auto)]

ghost use Rattle.std.specs.Prelude.{◌≡◌};
ghost use Rattle.table_kinds.specs.Kinds.{absent};

// The kinds of lines; a line of marks has one byte for each attribute.
#[derive(Clone, Copy)]
pub enum Kind {
    Letter,
    Title,
    Objects,
    Attributes,
    Blank,
    Name,
    Marks(usize),
}

// The number of a missing line, as `absent` of specs/ has it.
pub fn absent_of(kind: Kind) -> u64
    ensures { result ≡ absent kind }
{
    match kind {
        Kind::Letter => 22,
        Kind::Title => 25,
        Kind::Objects => 23,
        Kind::Attributes => 23,
        Kind::Blank => 25,
        Kind::Name => 26,
        Kind::Marks(_) => 27,
    }
}
