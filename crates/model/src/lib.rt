// What a call of the desk is lent, given and gives, as plain data. The structs are laid out as in C, so that a program in C or
// Rust can lend them.
#![tactic(auto)]

use limits::bounds::MAX_BOOKINGS;

// A record of the list of bookings. The desk chooses the name; cabs has one bit per cab.
#[repr(C)]
#[derive(Clone, Copy, PartialEq, Eq, Debug, Default)]
pub struct Booking {
    pub name: u32,
    pub film: u16,
    pub start: u32,
    pub prefetch: u16,
    pub reserve: u32,
    pub cabs: u64,
}

// A booking as it is asked for. Every number but the name is 64 bits wide, so that one too large for its field meets that
// field's own question.
#[repr(C)]
#[derive(Clone, Copy, PartialEq, Eq, Debug)]
pub struct Request {
    pub name: u32,
    pub film: u64,
    pub prefetch: u64,
    pub reserve: u64,
    pub cabs: u64,
    pub first: u64,
    pub last: u64,
}

// A day: T rounds, the disk limit D in bytes per round, the memory limit M in bytes, the current round and the number of
// bookings that stand.
#[repr(C)]
#[derive(Clone, Copy, PartialEq, Eq, Debug, Default)]
pub struct Day {
    pub rounds: u64,
    pub disk: u64,
    pub memory: u64,
    pub now: u64,
    pub count: u64,
}

// A line of a round's report, in bytes.
#[repr(C)]
#[derive(Clone, Copy, PartialEq, Eq, Debug, Default)]
pub struct Line {
    pub name: u32,
    pub read: u64,
    pub send: u64,
    pub held: u64,
}

// What a call answers: a refusal's number; an opened day; a booking's start; a name taken out; the films open and the cabs
// served in a played round.
#[derive(Clone, Copy, PartialEq, Eq, Debug)]
pub enum Answer {
    Refused(u32),
    Opened,
    Booked(u64),
    Dropped,
    Played(u64, u64),
}

// The desk between two calls: the day, the first 256 places of the list of records, and how many places the list has.
#[derive(Clone, Copy)]
pub struct Desk {
    pub day: Day,
    pub rows: [Booking; MAX_BOOKINGS],
    pub places: u64,
}

// The day sheet as it is lent: of each round the films open, the sum of their reserves and the sum of the bytes held.
#[derive(Drop)]
pub struct Sheet<'a> {
    pub opens: &'a mut [u64],
    pub reserves: &'a mut [u64],
    pub helds: &'a mut [u64],
}
