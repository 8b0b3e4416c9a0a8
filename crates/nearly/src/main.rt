// Which properties nearly always come with one or two others in the table on standard input (02, request 3/13). Beside it, on standard
// error: why a file is refused.
#![tactic(auto)]

use nearly_output::OUTPUT_BYTES;
use standard_streams::REPORT_BYTES;
use std::io::{IsTerminal, Write};
use table_layout::FILE_BYTES;

// How the program is used, said where a person calls it with no file.
const USAGE: &[u8] = b"usage: nearly < TABLE
Lists what more than 80 per cent of the rows with one or two properties have, of a table in Burmeister's layout.
";

fn main(rt: HostRuntime) {
    let (mut stdin, mut stdout, mut stderr) = (rt.stdin(), rt.stdout(), rt.stderr());
    if stdin.is_terminal() {
        let _ = stderr.write_all(USAGE);
        return;
    }
    let mut file = [0u8; FILE_BYTES];
    let Ok(size) = standard_streams::read_input(&mut stdin, &mut file) else {
        let _ = stderr.write_all(b"standard input cannot be read\n");
        return;
    };
    let mut out = [0u8; OUTPUT_BYTES];
    let told = nearly_answers::answer(&file, size, &mut out, &mut stdout);
    if !told.handed.whole {
        let _ = stderr.write_all(b"standard output cannot be written\n");
    }
    let mut report = [0u8; REPORT_BYTES];
    let explained = nearly_answers::explain(&file, size, &mut report);
    standard_streams::say(&mut stderr, &report, explained);
}
