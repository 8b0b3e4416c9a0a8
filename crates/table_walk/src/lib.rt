// The lines of a table file in order: the first one that is refused, or where they end.
#![tactic(auto)]

ghost use Rattle.std.specs.Prelude.{◌≡◌, length, replicate};
ghost use Rattle.table_walk.specs.Walk.{walk_on, rest, then_rest, place_of};

use session::Refusal;
use table_kinds::Kind;

// After a walk, so many lines of a kind.
pub fn walk_lines(
    file: &[u8],
    walked: Result<usize, Refusal>,
    kind: Kind,
    count: usize,
) -> Result<usize, Refusal>
    ensures { result ≡ walk_on walked (replicate count kind) file.now }
{
    let mut at = walked?;
    for _ in 0..count {
        at = line_walk::walk_line(file, at, kind)?;
    }
    Ok(at)
}

// From an offset on, empty lines alone.
// A while: the offset moves on by whole lines, and nothing is counted.
fn rest_of(file: &[u8], at: usize) -> Result<usize, Refusal>
    ensures { result ≡ rest (length file.now) file.now at }
{
    let mut i = at;
    while i < file.len() {
        let line = line_ends::line_at(file, i);
        if line.size != 0 {
            return Err(session::refuse(28, i));
        }
        i += line.step;
    }
    Ok(i)
}

// After the lines needed, empty lines alone.
pub fn walk_rest(file: &[u8], walked: Result<usize, Refusal>) -> Result<usize, Refusal>
    ensures { result ≡ then_rest file.now walked }
{
    rest_of(file, walked?)
}

// Where a walk ended, or where it failed.
pub fn place_of(walked: Result<usize, Refusal>) -> usize
    ensures { result ≡ place_of walked }
{
    walked.unwrap_or_else(|refusal| refusal.place)
}
