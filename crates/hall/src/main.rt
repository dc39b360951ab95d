// The program: films.bin, then the commands of standard input, each answered at once on standard output.
#![tactic(auto)]

ghost use Rattle.std.specs.Prelude.{◌≤◌, length};
ghost use Rattle.std.specs.Io.{ReadsAtMost};

use console::OUTPUT_BYTES;
use limits::bounds::{HALL_FILE, HALL_ROUNDS};
use model::Sheet;
use program::{Session, begin, serve_end, serve_line};
use std::io::Read;
use std::rt::Files;
use std::{fs, io};

// bytes of the film file's buffer: one more than the program takes, so that it sees a file that is too long
const FILE_BUFFER: usize = HALL_FILE + 1;

// bytes of the input that one read takes, at most
const INPUT_BUFFER: usize = 4096;

// Prints the bytes at the front of a buffer.
fn print(rt: &impl Print, out: &[u8], length: usize) -> io::Result<()> {
    rt.write_all(&out[..length.min(out.len())])
}

// Reads a file until it ends or the buffer is full, and gives how many bytes it put there. The library's `io::copy` goes on after an
// interrupted read, with which the file counts as empty here.
fn read_whole<F: Read>(file: &mut F, bytes: &mut [u8]) -> io::Result<usize>
    ensures { ReadsAtMost result bytes.new }
{
    let mut done = 0;
    while done < bytes.len() {
        let n = file.read(&mut bytes[done..])?;
        if n == 0 {
            return Ok(done);
        }
        done += n;
    }
    Ok(done)
}

// Reads the film file into the buffer, and gives its length.
fn open_films(rt: &impl Files, bytes: &mut [u8]) -> io::Result<usize>
    ensures { ReadsAtMost result bytes.new }
{
    let mut file = fs::open(rt, "films.bin")?;
    read_whole(&mut file, bytes)
}

// Takes bytes of the input, and prints the answer of each line that they end.
fn take_bytes(
    rt: &impl Print,
    file: &[u8],
    session: &mut Session,
    sheet: &mut Sheet<'_>,
    bytes: &[u8],
    out: &mut [u8],
) -> io::Result<()> {
    let mut rest = bytes;
    // Line by line: how much of the bytes a line takes is known once it is served.
    while !rest.is_empty() {
        let (length, left) = serve_line(file, session, sheet, rest, out);
        print(rt, out, length)?;
        rest = left;
    }
    Ok(())
}

// Answers every line of the input; its end ends a line too. Every proved loop has to end, and nothing says that the input does: so
// this one counts its reads, each of at least a byte, up to 2^64 - 1, which no run uses up.
fn serve<I: Read>(
    rt: &impl Print,
    input: &mut I,
    file: &[u8],
    sheet: &mut Sheet<'_>,
    out: &mut [u8],
) -> io::Result<()> {
    let mut session = Session::start();
    let mut bytes = [0u8; INPUT_BUFFER];
    for _ in 0..u64::MAX {
        let n = input.read(&mut bytes)?;
        if n == 0 {
            break;
        }
        take_bytes(rt, file, &mut session, sheet, &bytes[..n], out)?;
    }
    let length = serve_end(file, &mut session, sheet, out);
    print(rt, out, length)
}

// Runs the program with this film file, on the program's sheet. A refused file ends it.
fn run<I: Read>(rt: &impl Print, input: &mut I, file: &[u8]) -> io::Result<()> {
    let mut opens = [0u64; HALL_ROUNDS];
    let mut reserves = [0u64; HALL_ROUNDS];
    let mut helds = [0u64; HALL_ROUNDS];
    let mut sheet = Sheet {
        opens: &mut opens,
        reserves: &mut reserves,
        helds: &mut helds,
    };
    let mut out = [0u8; OUTPUT_BYTES];
    match begin(file, &mut out) {
        Ok(()) => serve(rt, input, file, &mut sheet, &mut out),
        Err(length) => print(rt, &out, length),
    }
}

fn main(rt: HostRuntime) -> io::Result<()> {
    let mut bytes = [0u8; FILE_BUFFER];
    // A file that is missing, or cannot be read to its end, counts as empty.
    let n = open_films(&rt, &mut bytes).unwrap_or(0);
    run(&rt, &mut rt.stdin(), &bytes[..n])
}
