// The interview of the complete table in a file (01: the program): beats until the last, each line written out when it is known.
#![tactic(auto)]

ghost use Rattle.context.specs.Parts.{mutable, shared};
ghost use Rattle.std.specs.Prelude.{[], ◌*◌, ◌≤◌, length};
ghost use Rattle.context.specs.Objects.{objects_of};
ghost use Rattle.machine.specs.Machine.{opening};
ghost use Rattle.handed_output.specs.Handing.{Tells, Writes};
ghost use Rattle.transcript.specs.Output.{interviewed, output_with};
ghost use Rattle.transcript.specs.Core.Along.{Along};
ghost use Rattle.interview_replies.specs.Holding.{holding, held};
ghost use Rattle.table_interview.specs.Places.{lent, places_for, Holds};
ghost use Rattle.table_replies.specs.Reply.{tabled};
ghost use Rattle.interview_beat.specs.Running.{remaining};

use std::io::Write;

// The bytes of a buffer that holds every output whole.
pub const OUTPUT_BYTES: usize = 163840;

// Beats until the last. A line is handed over when it is known.
fn run_beats<W: Write>(
    table: &[u64],
    objects: usize,
    start: interview_replies::Interview,
    rows: &mut [u64],
    list: &mut [u64],
    out: &mut [u8],
    writer: &mut W,
    before: handed_output::Handed,
) -> handed_output::Told
    requires along { Along (objects_of objects table.now) (holding start rows.old list.old) start.changes }
    requires objects_in_bounds { objects * 2 ≤ length table.now }
    ensures { Tells out before result (remaining (tabled objects (shared table)) (held start (mutable rows) (mutable list)) start.changes) }
{
    let mut interview = start;
    let mut at = 0;
    let mut handed = before;
    loop {
        let beaten = interview_beat::advance(table, objects, rows, list, interview, out, at);
        let end = beaten.at;
        handed = handed_output::hand_over(writer, out, at, end, handed);
        let Some(next) = beaten.next else {
            return handed_output::Told { end, handed };
        };
        at = end;
        interview = next;
    }
}

// The interview of a complete table whose rows are in words, from its opening on.
fn interview_table<W: Write>(
    table: &[u64],
    objects: usize,
    n: usize,
    rows: &mut [u64],
    list: &mut [u64],
    out: &mut [u8],
    writer: &mut W,
    before: handed_output::Handed,
) -> handed_output::Told
    requires { Holds n objects table.now }
    ensures { Tells out before result (interviewed (tabled objects (shared table)) (opening n (lent (mutable rows) (mutable list)) [] [])) }
{
    match session_opening::open(n, 0, rows, list, &table[..0]) {
        Err(refusal) => handed_output::write_refusal(refusal, out, writer, before),
        Ok(session) => {
            let start = interview_replies::Interview {
                n: session.n,
                rows: session.rows,
                rules: session.rules,
                current: session.current,
                changes: 0,
            };
            run_beats(table, objects, start, rows, list, out, writer, before)
        }
    }
}

// The program's whole output for a table file, in a lent buffer and, line by line as it becomes known, to the writer, with
// this many places for rows and rules, of those of a session.
pub fn hold<W: Write>(
    file: &[u8],
    row_places: usize,
    rule_places: usize,
    out: &mut [u8; OUTPUT_BYTES],
    writer: &mut W,
) -> handed_output::Told
    ensures { Writes out result (output_with (places_for row_places rule_places) file.now) }
{
    let mut table = [0u64; session::Session::ROWS * 2];
    let mut rows = [0u64; session::Session::ROWS * 2];
    let mut list = [0u64; session::Session::RULES * 2];
    let row_words = row_places.min(session::Session::ROWS) * 2;
    let list_words = rule_places.min(session::Session::RULES) * 2;
    let before = handed_output::Handed {
        bytes: 0,
        whole: true,
    };
    match table_marks::read_complete(file, &mut table) {
        Err(refusal) => handed_output::write_refusal(refusal, out, writer, before),
        Ok(layout) => interview_table(
            &table,
            layout.objects,
            layout.attributes,
            &mut rows[..row_words],
            &mut list[..list_words],
            out,
            writer,
            before,
        ),
    }
}
