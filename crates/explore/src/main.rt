// The interview of the complete table on standard input (01: the program). Beside it, on standard error: why a file is refused.
#![tactic(auto)]

use standard_streams::REPORT_BYTES;
use std::io::{IsTerminal, Write};
use table_interview::OUTPUT_BYTES;
use table_layout::FILE_BYTES;

// How the program is used, said where a person calls it with no file.
const USAGE: &[u8] = b"usage: explore < TABLE
Interviews a complete table in Burmeister's layout, in place of an expert.
";

// The sentence of a refusal number.
fn say_sentence<W: Write>(writer: &mut W, number: u64) {
    let mut report = [0u8; REPORT_BYTES];
    let size = refusal_reports::put_sentence_line(&mut report, 0, number);
    standard_streams::say(writer, &report, size);
}

fn main(rt: HostRuntime) {
    let (mut stdin, mut stdout, mut stderr) = (rt.stdin(), rt.stdout(), rt.stderr());
    if stdin.is_terminal() {
        let _ = stderr.write_all(USAGE);
        return;
    }
    let mut file = [0u8; FILE_BYTES];
    let Ok(size) = standard_streams::read_input(&mut stdin, &mut file) else {
        let _ = stderr.write_all(b"standard input cannot be read\n");
        return;
    };
    let mut out = [0u8; OUTPUT_BYTES];
    let told = explore_answers::answer(&file, size, &mut out, &mut stdout);
    if !told.handed.whole {
        let _ = stderr.write_all(b"standard output cannot be written\n");
    }
    let mut report = [0u8; REPORT_BYTES];
    let explained = explore_answers::explain(&file, size, &mut report);
    standard_streams::say(&mut stderr, &report, explained);
    if explained != 0 {
        return;
    }
    if explore_answers::ran_out(&out, told.end) {
        say_sentence(&mut stderr, 12);
    }
}
