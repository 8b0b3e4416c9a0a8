// The calls of a session for C. A call that only reads takes the record by `&`; the others store it where it changed.
ghost use Rattle.context.specs.Parts.{mutable, shared};
ghost use Rattle.implication.specs.Closure.{implication};
ghost use Rattle.context.specs.Objects.{object};
ghost use Rattle.machine.specs.Machine.{step as stepping, accept as accepting, reject as rejecting, follow, refute, test, file, fill};
ghost use Rattle.coded_opening.specs.Openings.{AnswersOn, OpensOn};
ghost use Rattle.call_logs.specs.Replay.{ReplaysOn};
ghost use Rattle.saved_interview.specs.TakingUp.{TakesUpOn};

// The opening: the opened record, or the given one where it is refused.
#[unsafe(no_mangle)]
pub extern "C" fn zundrafl_open_session(
    session: &mut session::Session,
    n: usize,
    used: usize,
    rows: &[u64],
    list: &[u64],
    background: &[u64],
    answer: &mut answer_words::Answer,
)
    ensures { OpensOn n used (mutable session) (shared rows) (shared list) (shared background) answer }
{
    *answer = coded_opening::open(*session, n, used, rows, list, background).store(session);
}

// Finished, moved, or the standing question.
#[unsafe(no_mangle)]
pub extern "C" fn zundrafl_step(
    session: &mut session::Session,
    rows: &[u64],
    list: &[u64],
    background: &[u64],
    answer: &mut answer_words::Answer,
)
    ensures { AnswersOn stepping (mutable session) (shared rows) (shared list) (shared background) answer }
{
    *answer = coded_calls::step(*session, rows, list, background).store(session);
}

// 01's yes: the standing question becomes the next rule of the list.
#[unsafe(no_mangle)]
pub extern "C" fn zundrafl_accept(
    session: &mut session::Session,
    rows: &[u64],
    list: &mut [u64],
    background: &[u64],
    answer: &mut answer_words::Answer,
)
    ensures { AnswersOn accepting (mutable session) (shared rows) (mutable list) (shared background) answer }
{
    *answer = coded_calls::accept(*session, rows, list, background).store(session);
}

// 01's no: the offered row becomes the next row.
#[unsafe(no_mangle)]
pub extern "C" fn zundrafl_reject(
    session: &mut session::Session,
    rows: &mut [u64],
    list: &[u64],
    background: &[u64],
    yes: u64,
    no: u64,
    answer: &mut answer_words::Answer,
)
    ensures { AnswersOn (rejecting (object yes no)) (mutable session) (mutable rows) (shared list) (shared background) answer }
{
    *answer = coded_calls::reject(*session, rows, list, background, yes, no).store(session);
}

// Whether an implication follows from those in force.
#[unsafe(no_mangle)]
pub extern "C" fn zundrafl_follows(
    session: &session::Session,
    rows: &[u64],
    list: &[u64],
    background: &[u64],
    premise: u64,
    conclusion: u64,
    answer: &mut answer_words::Answer,
)
    ensures { AnswersOn (follow (implication premise conclusion)) (shared session) (shared rows) (shared list) (shared background) answer }
{
    *answer = coded_queries::follows(*session, rows, list, background, premise, conclusion);
}

// Whether a row refutes an implication, with the first such row.
#[unsafe(no_mangle)]
pub extern "C" fn zundrafl_refuted(
    session: &session::Session,
    rows: &[u64],
    list: &[u64],
    background: &[u64],
    premise: u64,
    conclusion: u64,
    answer: &mut answer_words::Answer,
)
    ensures { AnswersOn (refute (implication premise conclusion)) (shared session) (shared rows) (shared list) (shared background) answer }
{
    *answer = coded_queries::refuted(*session, rows, list, background, premise, conclusion);
}

// 02's test: whether the offered row refutes the standing question.
#[unsafe(no_mangle)]
pub extern "C" fn zundrafl_test_row(
    session: &session::Session,
    rows: &[u64],
    list: &[u64],
    background: &[u64],
    yes: u64,
    no: u64,
    answer: &mut answer_words::Answer,
)
    ensures { AnswersOn (test (object yes no)) (shared session) (shared rows) (shared list) (shared background) answer }
{
    *answer = coded_queries::test_row(*session, rows, list, background, yes, no);
}

// 02's filing: the offered row becomes the next row.
#[unsafe(no_mangle)]
pub extern "C" fn zundrafl_file_row(
    session: &mut session::Session,
    rows: &mut [u64],
    list: &[u64],
    background: &[u64],
    yes: u64,
    no: u64,
    answer: &mut answer_words::Answer,
)
    ensures { AnswersOn (file (object yes no)) (mutable session) (mutable rows) (shared list) (shared background) answer }
{
    *answer = coded_calls::file_row(*session, rows, list, background, yes, no).store(session);
}

// 02's filling: the marks of the offered row are added to the row of this number. The record stays as it is.
#[unsafe(no_mangle)]
pub extern "C" fn zundrafl_fill_row(
    session: &mut session::Session,
    rows: &mut [u64],
    list: &[u64],
    background: &[u64],
    row: usize,
    yes: u64,
    no: u64,
    answer: &mut answer_words::Answer,
)
    ensures { AnswersOn (fill row (object yes no)) (mutable session) (mutable rows) (shared list) (shared background) answer }
{
    *answer = coded_calls::fill_row(*session, rows, list, background, row, yes, no);
}

// Makes each call of a log and writes down its answer; where the answers have no room for all, nothing is done.
#[unsafe(no_mangle)]
pub extern "C" fn zundrafl_replay(
    session: &mut session::Session,
    rows: &mut [u64],
    list: &mut [u64],
    background: &[u64],
    calls: &[u64],
    answers: &mut [u64],
    answer: &mut answer_words::Answer,
)
    ensures { ReplaysOn (mutable session) (mutable rows) (mutable list) (shared background) (shared calls) (mutable answers) answer }
{
    *answer = coded_logs::replay_coded(*session, rows, list, background, calls, answers).store(
        session,
    );
}

// Opens a session and makes each call of a log: a saved interview taken up again.
#[unsafe(no_mangle)]
pub extern "C" fn zundrafl_open_and_replay(
    session: &mut session::Session,
    n: usize,
    used: usize,
    rows: &mut [u64],
    list: &mut [u64],
    background: &[u64],
    calls: &[u64],
    answers: &mut [u64],
    answer: &mut answer_words::Answer,
)
    ensures { TakesUpOn n used (mutable session) (mutable rows) (mutable list) (shared background) (shared calls) (mutable answers) answer }
{
    *answer = saved_interview::open_and_replay(
        *session, n, used, rows, list, background, calls, answers,
    ).store(session);
}
