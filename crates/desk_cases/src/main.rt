// Carries out a script over the desk's calls: opening, booking, dropping, playing.
#![tactic(auto)]

mod calls;
mod garbage;
mod lent;
mod sums;

use calls::{OPEN, call};
use garbage::{PLACES, spoil};
use lent::{DAY, GARBAGE, Lent};
use model::{Answer, Sheet};
use script::buffer::{BUFFER, FilmBuffer};
use script::line::Line;
use script::operands::Operation;
use script::{buffer, input};
use std::io;

// An answer on the line: the refusal alone, or 0 and what the call gives.
fn add_answer(rt: &impl Print, line: Line, answer: Answer) -> io::Result<Line> {
    match answer {
        Answer::Refused(number) => line.add(rt, u64::from(number)),
        Answer::Opened | Answer::Dropped => line.add(rt, 0),
        Answer::Booked(start) => line.add(rt, 0)?.add(rt, start),
        Answer::Played(open, cabs) => line.add(rt, 0)?.add(rt, open)?.add(rt, cabs),
    }
}

// Carries out a call on the lent parts of the sheet's lists, and prints its answer and the checksum of everything lent.
fn answer(
    rt: &impl Print,
    operation: Operation<'_>,
    file: &[u8],
    sheet: &mut Sheet<'_>,
    lent: &mut Lent,
) -> io::Result<()> {
    let answer = call(operation, file, sheet, lent);
    let line = add_answer(rt, Line::begin(0, true), answer)?;
    line.add(rt, sums::everything(lent, sheet))?.end(rt)?;
    Ok(())
}

// The same on the whole lists: each a parameter, since parts of three fields of one `Sheet` are not covered by the borrow checker.
fn lend(
    rt: &impl Print,
    operation: Operation<'_>,
    file: &[u8],
    opens: &mut [u64],
    reserves: &mut [u64],
    helds: &mut [u64],
    lent: &mut Lent,
) -> io::Result<()> {
    let opened = lent.opens.min(opens.len());
    let reserved = lent.reserves.min(reserves.len());
    let held = lent.helds.min(helds.len());
    let mut sheet = Sheet {
        opens: &mut opens[..opened],
        reserves: &mut reserves[..reserved],
        helds: &mut helds[..held],
    };
    answer(rt, operation, file, &mut sheet, lent)
}

// Carries out an operation.
fn carry_out(
    rt: &impl Print,
    operation: Operation<'_>,
    film: &mut FilmBuffer<'_>,
    sheet: &mut Sheet<'_>,
    lent: &mut Lent,
) -> io::Result<()> {
    match operation.opcode() {
        GARBAGE => spoil(operation.u32(1), sheet, lent),
        ..OPEN => {
            film.carry_out(operation);
            lent.carry_out(operation);
        }
        _ => lend(
            rt,
            operation,
            film.file(),
            &mut *sheet.opens,
            &mut *sheet.reserves,
            &mut *sheet.helds,
            lent,
        )?,
    }
    Ok(())
}

// Bytes of the operands of an operation.
fn operands(operation: Operation<'_>) -> usize {
    match operation.opcode() {
        ..DAY => buffer::operands(operation),
        ..OPEN => lent::operands(operation),
        _ => calls::operands(operation),
    }
}

// Carries out the operations in order. The arrays are parameters, whose types give their lengths.
fn carry_out_all(
    rt: &impl Print,
    script: &[u8],
    bytes: &mut [u8; BUFFER],
    opens: &mut [u64; PLACES],
    reserves: &mut [u64; PLACES],
    helds: &mut [u64; PLACES],
) -> io::Result<()> {
    let mut film = FilmBuffer { bytes, length: 0 };
    let mut sheet = Sheet {
        opens,
        reserves,
        helds,
    };
    let mut lent = Lent::new();
    let mut rest = script;
    // Each program takes its operations for itself, since what they change differs; how much one takes is in its operands.
    'operations: while !rest.is_empty() {
        let operation = Operation { script: rest };
        carry_out(rt, operation, &mut film, &mut sheet, &mut lent)?;
        rest = operation.after(operands(operation));
    }
    Ok(())
}

fn main(rt: HostRuntime) -> io::Result<()> {
    let script = input::read(rt.stdin())?;
    let mut bytes = [0; BUFFER];
    let mut opens = [0; PLACES];
    let mut reserves = [0; PLACES];
    let mut helds = [0; PLACES];
    carry_out_all(
        &rt,
        &script,
        &mut bytes,
        &mut opens,
        &mut reserves,
        &mut helds,
    )
}
