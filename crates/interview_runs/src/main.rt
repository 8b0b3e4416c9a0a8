// Holds the interview of every table file that its arguments name, and writes its name and the output: once with the program's
// places, all of a session, and once with 2 for rows and 1 for rules.
#![tactic(auto)]

use named_files::PATH_BYTES;
use session::Session;
use std::io::Write;
use table_interview::OUTPUT_BYTES;
use table_layout::FILE_BYTES;

fn hold<W: Write>(writer: &mut W, file: &[u8], row_places: usize, rule_places: usize) {
    let mut out = [0u8; OUTPUT_BYTES];
    table_interview::hold(file, row_places, rule_places, &mut out, writer);
}

fn hold_path(rt: &HostRuntime, path: &[u8]) {
    let mut file = [0u8; FILE_BYTES];
    let mut stdout = rt.stdout();
    let Some(size) = named_files::read_path(rt, path, &mut file, &mut rt.stderr()) else {
        return;
    };
    let _ = stdout.write_all(path);
    let _ = stdout.write_all(b"\n");
    hold(&mut stdout, &file[..size], Session::ROWS, Session::RULES);
    let _ = stdout.write_all(path);
    let _ = stdout.write_all(b", 2 places for rows and 1 for rules\n");
    hold(&mut stdout, &file[..size], 2, 1);
}

fn hold_arg(rt: &HostRuntime, number: usize) {
    let mut path = [0u8; PATH_BYTES];
    let length = named_files::put_argument(rt, number, &mut path);
    hold_path(rt, &path[..length]);
}

// A loop of one line, as in the other two programs over named files: a function for it would take what is done as a closure, and be longer.
fn main(rt: HostRuntime) {
    for i in 1..named_files::count_arguments(&rt) {
        hold_arg(&rt, i);
    }
}
