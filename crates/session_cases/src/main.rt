// Carries out a script of sessions of the program, by the program's own splitter, grammar, calls and text.
#![tactic(auto)]

mod session;

use console::OUTPUT_BYTES;
use limits::bounds::HALL_ROUNDS;
use model::Sheet;
use program::Session;
use script::buffer::{BUFFER, FilmBuffer};
use script::operands::Operation;
use script::{buffer, input};
use std::io;

// opcodes: numbers, as they stand in a script
const BEGIN: u8 = 16;

const FEED: u8 = 17;

const REPEAT: u8 = 18;

const END: u8 = 19;

// Bytes of the operands of an operation.
fn operands(operation: Operation<'_>) -> usize {
    match operation.opcode() {
        BEGIN => 0,
        FEED => 2 + usize::from(operation.u16(1)),
        REPEAT => 5,
        END => 0,
        _ => buffer::operands(operation),
    }
}

// Carries out an operation of the session that stands.
fn carry_on(
    rt: &impl Print,
    operation: Operation<'_>,
    file: &[u8],
    session: &mut Session,
    sheet: &mut Sheet<'_>,
    out: &mut [u8],
) -> io::Result<()> {
    match operation.opcode() {
        FEED => {
            let bytes = operation.bytes(3, usize::from(operation.u16(1)));
            session::feed(rt, file, session, sheet, bytes, out)
        }
        REPEAT => session::repeat(
            rt,
            file,
            session,
            sheet,
            operation.u8(5),
            operation.u32(1) as usize,
            out,
        ),
        _ => session::end(rt, file, session, sheet, out),
    }
}

// Carries out an operation on the film file, or on the session that the script has begun, if it has.
fn carry_out(
    rt: &impl Print,
    operation: Operation<'_>,
    films: &mut FilmBuffer<'_>,
    session: &mut Option<Session>,
    sheet: &mut Sheet<'_>,
    out: &mut [u8],
) -> io::Result<()> {
    let opcode = operation.opcode();
    if opcode < BEGIN {
        films.carry_out(operation);
        return Ok(());
    }
    if opcode == BEGIN {
        *session = session::begin(rt, films.file(), out)?;
        return Ok(());
    }
    if let Some(begun) = session {
        carry_on(rt, operation, films.file(), begun, sheet, out)?;
    }
    if opcode != FEED && opcode != REPEAT {
        rt.print("END\n")?;
    }
    Ok(())
}

// Carries out the operations in order. The buffer is a parameter, whose type gives its length.
fn carry_out_all(
    rt: &impl Print,
    script: &[u8],
    bytes: &mut [u8; BUFFER],
    sheet: &mut Sheet<'_>,
    out: &mut [u8],
) -> io::Result<()> {
    let mut films = FilmBuffer { bytes, length: 0 };
    let mut session = None;
    let mut rest = script;
    // Each program takes its operations for itself, since what they change differs; how much one takes is in its operands.
    'operations: while !rest.is_empty() {
        let operation = Operation { script: rest };
        carry_out(rt, operation, &mut films, &mut session, sheet, out)?;
        rest = operation.after(operands(operation));
    }
    Ok(())
}

fn main(rt: HostRuntime) -> io::Result<()> {
    let script = input::read(rt.stdin())?;
    let mut bytes = [0u8; BUFFER];
    let mut opens = [0u64; HALL_ROUNDS];
    let mut reserves = [0u64; HALL_ROUNDS];
    let mut helds = [0u64; HALL_ROUNDS];
    let mut sheet = Sheet {
        opens: &mut opens,
        reserves: &mut reserves,
        helds: &mut helds,
    };
    let mut out = [0u8; OUTPUT_BYTES];
    carry_out_all(&rt, &script, &mut bytes, &mut sheet, &mut out)
}
