// The calls of a script.
use crate::lent::Lent;
use booking::book;
use dropping::drop_booking;
use model::{Answer, Request, Sheet};
use opening::open;
use playing::play;
use script::operands::Operation;

// opcodes: numbers, as they stand in a script
pub const OPEN: u8 = 32;

const BOOK: u8 = 33;

const DROP: u8 = 34;

const PLAY: u8 = 35;

// The request of an operation, with all numbers but the name of 64 bits.
fn wide_request(operation: Operation<'_>) -> Request {
    Request {
        name: operation.u32(1),
        film: operation.u64(5),
        prefetch: operation.u64(13),
        reserve: operation.u64(21),
        cabs: operation.u64(29),
        first: operation.u64(37),
        last: operation.u64(45),
    }
}

// The request of an operation, with numbers as narrow as a record's.
fn narrow_request(operation: Operation<'_>) -> Request {
    Request {
        name: operation.u32(1),
        film: u64::from(operation.u16(5)),
        prefetch: u64::from(operation.u16(7)),
        reserve: u64::from(operation.u32(9)),
        cabs: operation.u64(13),
        first: u64::from(operation.u32(21)),
        last: u64::from(operation.u32(25)),
    }
}

// Plays the round. The lines that it gives stand at the front of the report, over what stood there.
fn call_play(file: &[u8], lent: &mut Lent) -> Answer {
    let played = play(file, &mut lent.desk, lent.room);
    let lines = played.lines();
    lent.report[..lines.len()].copy_from_slice(lines);
    played.answer
}

// Carries out the call of an operation.
pub fn call(
    operation: Operation<'_>,
    file: &[u8],
    sheet: &mut Sheet<'_>,
    lent: &mut Lent,
) -> Answer {
    let desk = &mut lent.desk;
    match operation.opcode() {
        OPEN => open(
            &mut desk.day,
            sheet,
            operation.u64(1),
            operation.u64(9),
            operation.u64(17),
        ),
        BOOK => book(file, desk, sheet, wide_request(operation)),
        DROP => drop_booking(file, desk, sheet, operation.u32(1)),
        PLAY => call_play(file, lent),
        _ => book(file, desk, sheet, narrow_request(operation)),
    }
}

// Bytes of the operands of a call.
pub fn operands(operation: Operation<'_>) -> usize {
    match operation.opcode() {
        OPEN => 24,
        BOOK => 52,
        DROP => 4,
        PLAY => 0,
        _ => 28,
    }
}
