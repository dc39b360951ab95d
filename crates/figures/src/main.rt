// The figures of document 01, each computed by the library and printed on a line: 'Figures for film 1', its starred lines with
// their star, and the losses that 'The disk loss' names.
#![tactic(auto)]

mod bookings;
mod schedules;

use bookings::start;
use loss::loss;
use schedules::{held, largest, reserve, totals};
use std::io;

// the film file of film 1 alone, with sizes 8, 8, 8, 2, 6, 4
const FILM_1: [u8; 34] = [
    1, 0, 1, 0, 6, 0, 6, 0, 0, 0, 8, 0, 0, 0, 8, 0, 0, 0, 8, 0, 0, 0, 2, 0, 0, 0, 6, 0, 0, 0, 4, 0,
    0, 0,
];

// the same with all sizes 0
const ZEROS: [u8; 34] = [
    1, 0, 1, 0, 6, 0, 6, 0, 0, 0, 0, 0, 0, 0, 0, 0, 0, 0, 0, 0, 0, 0, 0, 0, 0, 0, 0, 0, 0, 0, 0, 0,
    0, 0,
];

// Begins the line of a schedule.
fn begin(rt: &impl Print, p: u64, b: u64) -> io::Result<()> {
    print!(rt; "* p {p}, b {b}: ")
}

// The lines on schedules.
fn schedule_lines(rt: &impl Print, file: &[u8]) -> io::Result<()> {
    begin(rt, 1, 6)?;
    totals(rt, file, 1, 6)?;
    print!(rt; "; ")?;
    held(rt, file, 1, 6)?;
    println!(rt)?;
    begin(rt, 0, 7)?;
    totals(rt, file, 0, 7)?;
    println!(rt)?;
    begin(rt, 0, 8)?;
    held(rt, file, 0, 8)?;
    println!(rt)?;
    begin(rt, 1, 5)?;
    totals(rt, file, 1, 5)?;
    println!(rt)?;
    for (p, b) in [(2, 5), (1, 7)] {
        begin(rt, p, b)?;
        largest(rt, file, p, b)?;
        println!(rt)?;
    }
    Ok(())
}

// The lines on least reserves.
fn reserve_lines(rt: &impl Print, text: &str, file: &[u8], caps: &[u64]) -> io::Result<()> {
    for cap in caps {
        print!(rt; "{text}, p 1: ")?;
        reserve(rt, file, *cap)?;
    }
    Ok(())
}

// The lines on the disk loss.
fn loss_lines(rt: &impl Print) -> io::Result<()> {
    for films in [0, 1, 2, 3, 256] {
        let bytes = loss(films);
        println!(rt; "loss({films}) = {bytes}")?;
    }
    Ok(())
}

fn main(rt: HostRuntime) -> io::Result<()> {
    schedule_lines(&rt, &FILM_1)?;
    reserve_lines(&rt, "* Least reserve", &FILM_1, &[12, 11, 8, 7])?;
    start(&rt, &FILM_1, 141433, 15, 2)?;
    start(&rt, &FILM_1, 141432, 18, 2)?;
    start(&rt, &FILM_1, 141433, 18, 1)?;
    reserve_lines(&rt, "All sizes 0", &ZEROS, &[12, 0])?;
    loss_lines(&rt)
}
