// Files that the arguments of a program name, each read to a buffer.
#![tactic(auto)]

ghost use Rattle.std.specs.Prelude.{◌≤◌, length, IfSome, MatchResult};
ghost use Rattle.named_files.specs.Counts.{Counts};

use std::env::{Env, FillError};
use std::fs::File;
use std::io::{Error, ErrorKind, Read, Write};
use std::rt::Files;

// The bytes of a buffer that holds every path.
pub const PATH_BYTES: usize = 4096;

// A read failed, with so many bytes of the file at the start of the buffer.
#[derive(Clone, Copy)]
pub struct ReadFailed {
    pub size: usize,
}

// How many arguments the program was started with, its own name among them.
pub fn count_arguments<R: Env>(rt: &R) -> usize {
    let mut byte = [0u8];
    for i in 0..usize::MAX {
        if let Err(FillError::NotPresent) = rt.arg(i, &mut byte) {
            return i;
        }
    }
    usize::MAX
}

// The argument of this number, at the start of the buffer: its length, and 0 where it is missing or longer than the buffer.
pub fn put_argument<R: Env>(rt: &R, number: usize, path: &mut [u8]) -> usize
    ensures { Counts result path.new }
{
    match rt.arg(number, path) {
        Ok(length) => length,
        Err(_) => 0,
    }
}

// Reads until the buffer is full, the file ends or a read fails: how many bytes then stand at the start of the buffer.
pub fn read_full<R: Read>(reader: &mut R, file: &mut [u8]) -> Result<usize, ReadFailed>
    ensures { MatchResult result (λ size. Counts size file.new) (λ failed. Counts failed.size file.new) }
{
    let mut size = 0;
    while size < file.len() {
        match reader.read(&mut file[size..]) {
            Ok(0) => return Ok(size),
            Ok(more) => size += more,
            Err(_) => return Err(ReadFailed { size }),
        }
    }
    Ok(size)
}

// Opens the file of this path for reading. A path that is no text names no file.
fn open<R: Files>(rt: &R, path: &[u8]) -> std::io::Result<R::File> {
    match str::from_utf8(path) {
        Ok(text) => File::open(rt, text),
        Err(_) => Err(Error::from(ErrorKind::InvalidFilename)),
    }
}

// So many bytes of a system's error are its words; its number stands behind them in brackets.
fn size_of_words(error: &[u8]) -> usize
    ensures { result ≤ length error.now }
{
    match error.iter().rposition(|byte| *byte == b'(') {
        Some(bracket @ 1..) => bracket - 1,
        _ => error.len(),
    }
}

// Writes why a path is not opened, in a line: the path, and the words of the error.
fn write_why<W: Write>(writer: &mut W, path: &[u8], error: Error) {
    let mut shown = [0u8; 512];
    let mut rest: &mut [u8] = &mut shown;
    let _ = write!(rest, "{error}");
    let left = rest.len();
    let end = shown.len().saturating_sub(left);
    let size = size_of_words(&shown[..end]);
    let _ = writer.write_all(path);
    let _ = writer.write_all(b": ");
    let _ = writer.write_all(&shown[..size]);
    let _ = writer.write_all(b"\n");
}

// Reads the file of this path until it ends, the buffer is full or a read fails: how many bytes then stand at the start of the buffer.
// Where it cannot be opened, there are none, and the writer is told why.
pub fn read_path<R: Files, W: Write>(
    rt: &R,
    path: &[u8],
    file: &mut [u8],
    writer: &mut W,
) -> Option<usize>
    ensures { IfSome result (λ size. Counts size file.new) }
{
    match open(rt, path) {
        Ok(mut opened) => match read_full(&mut opened, file) {
            Ok(size) | Err(ReadFailed { size }) => Some(size),
        },
        Err(error) => {
            write_why(writer, path, error);
            None
        }
    }
}

// Reads the file that the argument of this number names, and writes its name.
pub fn read_argument<R: Env + Files, W: Write, E: Write>(
    rt: &R,
    number: usize,
    file: &mut [u8],
    writer: &mut W,
    errors: &mut E,
) -> Option<usize>
    ensures { IfSome result (λ size. Counts size file.new) }
{
    let mut path = [0u8; PATH_BYTES];
    let length = put_argument(rt, number, &mut path);
    let size = read_path(rt, &path[..length], file, errors)?;
    let _ = writer.write_all(&path[..length]);
    Some(size)
}
