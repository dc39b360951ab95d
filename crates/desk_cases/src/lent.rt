// Everything that the calls are lent but the film file and the sheet's lists, and the operations that set it.
use limits::bounds::MAX_BOOKINGS;
use model::{Booking, Day, Desk, Line};
use script::operands::Operation;

// opcodes: numbers, as they stand in a script
pub const DAY: u8 = 16;

pub const RECORD: u8 = 17;

pub const PLACES: u8 = 18;

pub const SHEETS: u8 = 19;

pub const GARBAGE: u8 = 20;

pub const REPORT: u8 = 21;

// The desk and the report; of the sheet's lists and of the report, how much is lent.
#[derive(Drop)]
pub struct Lent {
    pub desk: Desk,
    pub opens: usize,
    pub reserves: usize,
    pub helds: usize,
    pub report: [Line; MAX_BOOKINGS],
    pub room: u64,
}

// The day with one field set.
fn with_field(day: Day, field: u8, value: u64) -> Day {
    match field {
        0 => Day {
            rounds: value,
            ..day
        },
        1 => Day { disk: value, ..day },
        2 => Day {
            memory: value,
            ..day
        },
        3 => Day { now: value, ..day },
        _ => Day {
            count: value,
            ..day
        },
    }
}

// The record of an operation.
fn record(operation: Operation<'_>) -> Booking {
    Booking {
        name: operation.u32(2),
        film: operation.u16(6),
        start: operation.u32(8),
        prefetch: operation.u16(12),
        reserve: operation.u32(14),
        cabs: operation.u64(18),
    }
}

impl Lent {
    // At first everything is 0.
    pub fn new() -> Lent {
        Lent {
            desk: Desk {
                day: Day::default(),
                rows: [Booking::default(); MAX_BOOKINGS],
                places: 0,
            },
            opens: 0,
            reserves: 0,
            helds: 0,
            report: [Line::default(); MAX_BOOKINGS],
            room: 0,
        }
    }

    // Carries out an operation if it is one of those that set what is lent.
    pub fn carry_out(&mut self, operation: Operation<'_>) {
        match operation.opcode() {
            DAY => self.desk.day = with_field(self.desk.day, operation.u8(1), operation.u64(2)),
            RECORD => self.desk.rows[usize::from(operation.u8(1))] = record(operation),
            PLACES => self.desk.places = u64::from(operation.u16(1)),
            SHEETS => {
                self.opens = usize::from(operation.u16(1));
                self.reserves = usize::from(operation.u16(3));
                self.helds = usize::from(operation.u16(5));
            }
            REPORT => self.room = u64::from(operation.u16(1)),
            _ => {}
        }
    }
}

// Bytes of the operands of an operation, 0 where it is none of these.
pub fn operands(operation: Operation<'_>) -> usize {
    match operation.opcode() {
        DAY => 9,
        RECORD => 25,
        PLACES => 2,
        SHEETS => 6,
        GARBAGE => 4,
        REPORT => 2,
        _ => 0,
    }
}
