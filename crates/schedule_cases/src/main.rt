// Carries out a script over the calls for a film's schedule, for its least reserve and for what it holds.
#![tactic(auto)]

use limits::refusals::Refusal;
use planning::reserves::least_reserve;
use planning::schedules::schedule;
use retrieval::Schedule;
use script::buffer::{BUFFER, FilmBuffer, prefix};
use script::checksum::absorb_all;
use script::line::Line;
use script::operands::Operation;
use script::{buffer, film, input};
use std::io;

// opcodes: numbers, as they stand in a script
const PRINT: u8 = 8;

const SCHEDULE: u8 = 10;

const RESERVE: u8 = 11;

const PEAK: u8 = 12;

// places of the output list
const PLACES: usize = 4400;

// places of the output list that are printed, at most
const SHOWN: usize = 8;

// what place i holds before a call is this plus i, more than any total
const FILLER: u64 = 1000000000000;

// What an operation asks: a film's number, its pre-fetch rounds, and its reserve or the memory cap.
#[derive(Clone, Copy)]
struct Question {
    film: u64,
    prefetch: u64,
    bytes: u64,
}

impl Question {
    // The question of an operation.
    fn of(operation: Operation<'_>) -> Question {
        Question {
            film: operation.u64(1),
            prefetch: operation.u64(9),
            bytes: operation.u64(17),
        }
    }
}

// The line of a refusal. Gives the checksum.
fn refused(rt: &impl Print, refusal: Refusal, sum: u64) -> io::Result<u64> {
    let line = Line::begin(sum, true);
    line.add(rt, u64::from(refusal.number()))?.end(rt)
}

// The output list before a call.
fn fill(out: &mut [u64]) {
    for (place, filler) in out.iter_mut().zip(FILLER..FILLER + PLACES as u64) {
        *place = filler;
    }
}

// The first places of the output list on the line.
fn add_first(rt: &impl Print, line: Line, out: &[u64]) -> io::Result<Line> {
    let mut more = line;
    for total in prefix(out, SHOWN) {
        more = more.add(rt, *total)?;
    }
    Ok(more)
}

// The line of a schedule that is asked for, and of the output list, which it is written to. Gives the checksum.
fn totals(
    rt: &impl Print,
    file: &[u8],
    asked: Question,
    out: &mut [u64],
    sum: u64,
) -> io::Result<u64> {
    fill(out);
    let number = match schedule(file, asked.film, asked.prefetch, asked.bytes, out) {
        Ok(_) => 0,
        Err(refusal) => refusal.number(),
    };
    let line = Line::begin(sum, true).add(rt, u64::from(number))?;
    let shown = add_first(rt, line, out)?;
    shown.add(rt, absorb_all(0, out))?.end(rt)
}

// The line of a least reserve that is asked for. Gives the checksum.
fn reserve(rt: &impl Print, file: &[u8], asked: Question, sum: u64) -> io::Result<u64> {
    match least_reserve(file, asked.film, asked.prefetch, asked.bytes) {
        Ok(bytes) => Line::begin(sum, true).add(rt, 0)?.add(rt, bytes)?.end(rt),
        Err(refusal) => refused(rt, refusal, sum),
    }
}

// The checksum over what a film reads, sends and holds in each of its rounds.
fn rounds_sum(schedule: &Schedule<'_>) -> u64 {
    let mut sum = 0;
    for t in 0..schedule.rounds() {
        let round = schedule.round_at(t);
        sum = absorb_all(sum, &[round.read, round.send, round.held]);
    }
    sum
}

// The line of what a film holds. Gives the checksum.
fn profile(rt: &impl Print, file: &[u8], asked: Question, sum: u64) -> io::Result<u64> {
    match film::schedule(file, asked.film, asked.prefetch, asked.bytes) {
        Ok(schedule) => {
            let line = Line::begin(sum, true).add(rt, 0)?;
            line.add(rt, schedule.peak())?
                .add(rt, rounds_sum(&schedule))?
                .end(rt)
        }
        Err(refusal) => refused(rt, refusal, sum),
    }
}

// Carries out an operation if it asks about a film. Gives the checksum.
fn ask(
    rt: &impl Print,
    operation: Operation<'_>,
    file: &[u8],
    out: &mut [u64],
    sum: u64,
) -> io::Result<u64> {
    let asked = Question::of(operation);
    match operation.opcode() {
        SCHEDULE => {
            let places = out.len().min(operation.u32(25) as usize);
            totals(rt, file, asked, &mut out[..places], sum)
        }
        RESERVE => reserve(rt, file, asked, sum),
        PEAK => profile(rt, file, asked, sum),
        PRINT => {
            println!(rt; "{sum}")?;
            Ok(sum)
        }
        _ => Ok(sum),
    }
}

// Bytes of the operands of an operation.
fn operands(operation: Operation<'_>) -> usize {
    match operation.opcode() {
        SCHEDULE => 28,
        RESERVE | PEAK => 24,
        _ => buffer::operands(operation),
    }
}

// Carries out the operations in order. The arrays are parameters, whose types give their lengths.
fn carry_out_all(
    rt: &impl Print,
    script: &[u8],
    bytes: &mut [u8; BUFFER],
    out: &mut [u64; PLACES],
) -> io::Result<()> {
    let mut film = FilmBuffer { bytes, length: 0 };
    let mut sum = 0;
    let mut rest = script;
    // Each program takes its operations for itself, since what they change differs; how much one takes is in its operands.
    'operations: while !rest.is_empty() {
        let operation = Operation { script: rest };
        film.carry_out(operation);
        sum = ask(rt, operation, film.file(), out, sum)?;
        rest = operation.after(operands(operation));
    }
    Ok(())
}

fn main(rt: HostRuntime) -> io::Result<()> {
    let script = input::read(rt.stdin())?;
    let mut bytes = [0; BUFFER];
    let mut out = [0; PLACES];
    carry_out_all(&rt, &script, &mut bytes, &mut out)
}
