// A film's schedule, what it holds, and its least reserve. The film is number 1 of its file.
use limits::refusals::Refusal;
use planning::reserves::least_reserve;
use planning::schedules::schedule;
use retrieval::Schedule;
use script::buffer::prefix;
use script::film;
use std::io;

// the film's number
const FILM: u64 = 1;

// places of the lists that totals and bytes held are written to
const PLACES: usize = 16;

fn refused(rt: &impl Print, refusal: Refusal) -> io::Result<()> {
    let number = refusal.number();
    print!(rt; "refused {number}")
}

// Prints words and numbers, with a comma between two numbers.
fn list(rt: &impl Print, text: &str, numbers: &[u64]) -> io::Result<()> {
    print!(rt; "{text}")?;
    if let [first, rest @ ..] = numbers {
        print!(rt; " {first}")?;
        for number in rest {
            print!(rt; ", {number}")?;
        }
    }
    Ok(())
}

// Prints the read totals, or the refusal.
pub fn totals(rt: &impl Print, file: &[u8], p: u64, b: u64) -> io::Result<()> {
    let mut out = [0; PLACES];
    match schedule(file, FILM, p, b, &mut out) {
        Ok(count) => list(rt, "totals", prefix(&out, count as usize)),
        Err(refusal) => refused(rt, refusal),
    }
}

// What each round holds.
fn held_of(schedule: &Schedule<'_>) -> [u64; PLACES] {
    let mut out = [0; PLACES];
    for t in 0..schedule.rounds().min(PLACES) {
        out[t] = schedule.round_at(t).held;
    }
    out
}

// Prints the bytes held in each round, or the refusal.
pub fn held(rt: &impl Print, file: &[u8], p: u64, b: u64) -> io::Result<()> {
    match film::schedule(file, FILM, p, b) {
        Ok(schedule) => list(rt, "held", prefix(&held_of(&schedule), schedule.rounds())),
        Err(refusal) => refused(rt, refusal),
    }
}

// Prints the peak, or the refusal.
pub fn largest(rt: &impl Print, file: &[u8], p: u64, b: u64) -> io::Result<()> {
    match film::schedule(file, FILM, p, b) {
        Ok(schedule) => {
            let peak = schedule.peak();
            print!(rt; "peak {peak}")
        }
        Err(refusal) => refused(rt, refusal),
    }
}

// Prints the least reserve with one pre-fetch round and this cap, or the refusal.
pub fn reserve(rt: &impl Print, file: &[u8], cap: u64) -> io::Result<()> {
    match least_reserve(file, FILM, 1, cap) {
        Ok(bytes) => println!(rt; "cap {cap} gives {bytes}"),
        Err(refusal) => {
            let number = refusal.number();
            println!(rt; "cap {cap} is refused {number}")
        }
    }
}
