// What a reply to the standing question of a session gives back, by value, and a filing too: the answer and the record.
#![tactic(auto)]

ghost use Rattle.std.specs.Prelude.{◌≡◌};
ghost use Rattle.session_replies.specs.Answers.{refused_with};

// A refusal gives the record back as it was.
pub fn refused(
    session: session::Session,
    refusal: session::Refusal,
) -> session::Turn<Result<(), session::Refusal>>
    ensures { result ≡ refused_with session refusal }
{
    session::Turn::kept(session, Err(refusal))
}
