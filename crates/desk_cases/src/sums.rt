// The checksum of everything lent.
use crate::lent::Lent;
use model::{Booking, Day, Line, Sheet};
use script::buffer::prefix;
use script::checksum::absorb_all;

fn absorb_day(sum: u64, day: Day) -> u64 {
    absorb_all(sum, &[day.rounds, day.disk, day.memory, day.now, day.count])
}

fn absorb_row(sum: u64, row: Booking) -> u64 {
    let placed = [
        u64::from(row.name),
        u64::from(row.film),
        u64::from(row.start),
    ];
    let planned = [u64::from(row.prefetch), u64::from(row.reserve), row.cabs];
    absorb_all(absorb_all(sum, &placed), &planned)
}

fn absorb_line(sum: u64, line: Line) -> u64 {
    absorb_all(
        sum,
        &[u64::from(line.name), line.read, line.send, line.held],
    )
}

// The day, every record, every lent place of the sheet and every lent line of the report.
pub fn everything(lent: &Lent, sheet: &Sheet<'_>) -> u64 {
    let day = absorb_day(0, lent.desk.day);
    let records = lent
        .desk
        .rows
        .iter()
        .fold(day, |sum, row| absorb_row(sum, *row));
    let opens = absorb_all(records, &*sheet.opens);
    let reserves = absorb_all(opens, &*sheet.reserves);
    let helds = absorb_all(reserves, &*sheet.helds);
    let lines = prefix(&lent.report, lent.room as usize);
    lines
        .iter()
        .fold(helds, |sum, line| absorb_line(sum, *line))
}
