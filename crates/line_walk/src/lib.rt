// One line of a table file: the refusal, or where the next line begins.
#![tactic(auto)]

ghost use Rattle.std.specs.Prelude.{◌≡◌, [], ◌∷◌};
ghost use Rattle.line_walk.specs.Walk.{walk};

use session::Refusal;
use table_kinds::Kind;

// One line of the kind: the refusal, or where the next line begins.
pub fn walk_line(file: &[u8], at: usize, kind: Kind) -> Result<usize, Refusal>
    ensures { result ≡ walk (kind ∷ []) file.now at }
{
    if file.len() <= at {
        return Err(session::refuse(table_kinds::absent_of(kind), at));
    }
    let line = line_ends::line_at(file, at);
    let end = at + line.size;
    line_faults::fault_of(&file[at..end], kind).map_err(|number| session::refuse(number, at))?;
    Ok(at + line.step)
}
