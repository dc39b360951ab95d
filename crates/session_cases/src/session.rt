// A session of the program: its film file, bytes of its input, and their end. What the program prints is printed.
use model::Sheet;
use program::{Session, serve_end, serve_line};
use script::buffer::prefix;
use std::io;

// bytes that are fed at once of those that are all the same
const PART: usize = 4096;

// The program begins with this film file. With one that is refused there is no session, and the input is not read.
pub fn begin(rt: &impl Print, file: &[u8], out: &mut [u8]) -> io::Result<Option<Session>> {
    match program::begin(file, out) {
        Ok(()) => Ok(Some(Session::start())),
        Err(length) => {
            rt.write_all(prefix(out, length))?;
            Ok(None)
        }
    }
}

// The input's next bytes: each line that they end is answered.
pub fn feed(
    rt: &impl Print,
    file: &[u8],
    session: &mut Session,
    sheet: &mut Sheet<'_>,
    bytes: &[u8],
    out: &mut [u8],
) -> io::Result<()> {
    let mut rest = bytes;
    // Line by line: how much of the bytes a line takes is known once it is served.
    while !rest.is_empty() {
        let (length, left) = serve_line(file, session, sheet, rest, out);
        rt.write_all(prefix(out, length))?;
        rest = left;
    }
    Ok(())
}

// The input's next bytes, all the same.
pub fn repeat(
    rt: &impl Print,
    file: &[u8],
    session: &mut Session,
    sheet: &mut Sheet<'_>,
    value: u8,
    count: usize,
    out: &mut [u8],
) -> io::Result<()> {
    let part = [value; PART];
    for _ in 0..count / PART {
        feed(rt, file, session, sheet, &part, out)?;
    }
    feed(rt, file, session, sheet, &part[..count % PART], out)
}

// The input ends. The session stays as it was, for bytes that a script feeds after the end.
pub fn end(
    rt: &impl Print,
    file: &[u8],
    session: &mut Session,
    sheet: &mut Sheet<'_>,
    out: &mut [u8],
) -> io::Result<()> {
    let desk = session.desk;
    let length = serve_end(file, session, sheet, out);
    session.desk = desk;
    rt.write_all(prefix(out, length))
}
