// Booking 2 of document 01's session, after booking 1, in a day of 20 rounds.
use booking::book;
use limits::bounds::{HALL_PLACES, HALL_ROUNDS, MAX_BOOKINGS};
use model::{Answer, Booking, Day, Desk, Request, Sheet};
use opening::open;
use std::io;

// rounds of the day
const ROUNDS: u64 = 20;

// "BOOK name 1 1 6 cabs 0 last"
fn request(name: u32, cabs: u64, last: u64) -> Request {
    Request {
        name,
        film: 1,
        prefetch: 1,
        reserve: 6,
        cabs,
        first: 0,
        last,
    }
}

// Opens a day with these limits and books both. Gives the answer to the second.
fn second(file: &[u8], sheet: &mut Sheet<'_>, disk: u64, memory: u64, cabs: u64) -> Answer {
    let mut desk = Desk {
        day: Day::default(),
        rows: [Booking::default(); MAX_BOOKINGS],
        places: HALL_PLACES as u64,
    };
    open(&mut desk.day, sheet, ROUNDS, disk, memory);
    book(file, &mut desk, sheet, request(1, 1, 0));
    book(file, &mut desk, sheet, request(2, cabs, 10))
}

// Prints the start of booking 2 with these limits and cabs.
pub fn start(rt: &impl Print, file: &[u8], disk: u64, memory: u64, cabs: u64) -> io::Result<()> {
    let mut opens = [0; HALL_ROUNDS];
    let mut reserves = [0; HALL_ROUNDS];
    let mut helds = [0; HALL_ROUNDS];
    let mut sheet = Sheet {
        opens: &mut opens,
        reserves: &mut reserves,
        helds: &mut helds,
    };
    print!(rt; "* Booking 2, D {disk}, M {memory}, cabs {cabs}: ")?;
    match second(file, &mut sheet, disk, memory, cabs) {
        Answer::Booked(start) => println!(rt; "start {start}"),
        Answer::Refused(refusal) => println!(rt; "refused {refusal}"),
        _ => println!(rt),
    }
}
