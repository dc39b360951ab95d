// Carries out a script over the film file: verdict, reader and summary.
#![tactic(auto)]

use films::catalogue::verdict;
use lent::film_reader::FilmReader;
use limits::bounds::MAX_FILMS;
use limits::refusals::Refusal;
use reader::cursor::Entry;
use reader::summary::{Figures, summary};
use script::buffer::{BUFFER, FilmBuffer};
use script::line::Line;
use script::operands::Operation;
use script::{buffer, input};
use std::io;

// opcodes: numbers, as they stand in a script
const RUN: u8 = 5;

const SUMMARY: u8 = 6;

const CHECK: u8 = 7;

const PRINT: u8 = 8;

fn add_refusal(rt: &impl Print, line: Line, refusal: Refusal) -> io::Result<Line> {
    line.add(rt, u64::from(refusal.number()))
}

fn add_figures(rt: &impl Print, line: Line, figures: Figures) -> io::Result<Line> {
    line.add(rt, figures.total)?
        .add(rt, figures.largest)?
        .add(rt, figures.mean)
}

// A film and its figures on the line, or a refusal.
fn add_film(rt: &impl Print, line: Line, file: &[u8], film: Entry) -> io::Result<Line> {
    let number = u64::from(film.number);
    let named = line.add(rt, number)?.add(rt, u64::from(film.rounds))?;
    match summary(file, number) {
        Ok(figures) => add_figures(rt, named, figures),
        Err(refusal) => add_refusal(rt, named, refusal),
    }
}

// What a reader gave, on the line: a film and its figures, a 0 unprinted for "no more", or a refusal.
fn add_given(
    rt: &impl Print,
    line: Line,
    file: &[u8],
    given: Result<Option<Entry>, u32>,
) -> io::Result<Line> {
    match given {
        Ok(Some(film)) => add_film(rt, line, file, film),
        Ok(None) => Ok(line.hide(0)),
        Err(refusal) => line.add(rt, u64::from(refusal)),
    }
}

// Everything that a reader gives, and its second "no more".
fn read(rt: &impl Print, file: &[u8], line: Line) -> io::Result<Line> {
    let mut reader = FilmReader::start(file);
    let mut line = line;
    for _ in 0..=MAX_FILMS {
        let given = reader.next();
        line = add_given(rt, line, file, given)?;
        if !matches!(given, Ok(Some(_))) {
            break;
        }
    }
    add_given(rt, line, file, reader.next())
}

// The verdict, and of an accepted file every film. Gives the checksum.
fn examine(rt: &impl Print, file: &[u8], sum: u64, printed: bool) -> io::Result<u64> {
    let line = Line::begin(sum, printed);
    match verdict(file) {
        Ok(()) => read(rt, file, line.add(rt, 0)?)?.end(rt),
        Err(refusal) => add_refusal(rt, line, refusal)?.end(rt),
    }
}

// The summary of a film. Gives the checksum.
fn summarise(rt: &impl Print, file: &[u8], film: u64, sum: u64) -> io::Result<u64> {
    let line = Line::begin(sum, true);
    match summary(file, film) {
        Ok(figures) => add_figures(rt, line.add(rt, 0)?, figures)?.end(rt),
        Err(refusal) => add_refusal(rt, line, refusal)?.end(rt),
    }
}

// Carries out an operation if it asks about the file. Gives the checksum.
fn ask(rt: &impl Print, operation: Operation<'_>, file: &[u8], sum: u64) -> io::Result<u64> {
    match operation.opcode() {
        RUN => examine(rt, file, sum, true),
        SUMMARY => summarise(rt, file, operation.u64(1), sum),
        CHECK => examine(rt, file, sum, false),
        PRINT => {
            println!(rt; "{sum}")?;
            Ok(sum)
        }
        _ => Ok(sum),
    }
}

// Bytes of the operands of an operation.
fn operands(operation: Operation<'_>) -> usize {
    match operation.opcode() {
        SUMMARY => 8,
        _ => buffer::operands(operation),
    }
}

// Carries out the operations in order. The array is a parameter, whose type gives its length.
fn carry_out_all(rt: &impl Print, script: &[u8], bytes: &mut [u8; BUFFER]) -> io::Result<()> {
    let mut film = FilmBuffer { bytes, length: 0 };
    let mut sum = 0;
    let mut rest = script;
    // Each program takes its operations for itself, since what they change differs; how much one takes is in its operands.
    'operations: while !rest.is_empty() {
        let operation = Operation { script: rest };
        film.carry_out(operation);
        sum = ask(rt, operation, film.file(), sum)?;
        rest = operation.after(operands(operation));
    }
    Ok(())
}

fn main(rt: HostRuntime) -> io::Result<()> {
    let script = input::read(rt.stdin())?;
    let mut bytes = [0; BUFFER];
    carry_out_all(&rt, &script, &mut bytes)
}
