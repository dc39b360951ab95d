// The calls of the desk over a lent list of records: each makes a desk of the first 256 records, makes its call, and stores them. A
// refusal stores what was loaded, so that every record stays as it was.
ghost use Rattle.std.specs.Prelude.{◌≡◌};
ghost use Rattle.interface.specs.Records.{desk_of};
ghost use Rattle.interface.specs.DeskCalls.{BooksOver, DropsOver, PlaysOver};
ghost use Rattle.interface.specs.ReplayCall.{ReplaysOver};

use crate::records::{load, store};
use booking::book;
use dropping::drop_booking;
use interface::replay_call::Replayed;
use interface::reply::Reply;
use model::{Booking, Day, Desk, Line, Request, Sheet};
use playing::play;
use replay::replay;

// The desk of a lent list.
fn desk_of(day: Day, records: &[Booking]) -> Desk
    ensures { result ≡ desk_of day records.now }
{
    Desk {
        day,
        rows: load(records),
        places: records.len() as u64,
    }
}

// Books: refusals 1 to 7, 14, 15, 11, 16, 18, 8, 9, 10, 20, 12, 21, 17, 22. A refusal alters nothing lent, but that 22 leaves the
// sheet of the bookings as they stand.
pub fn playback_book(
    file: &[u8],
    day: Day,
    records: &mut [Booking],
    request: Request,
    opens: &mut [u64],
    reserves: &mut [u64],
    helds: &mut [u64],
) -> Reply
    ensures { BooksOver file.now day records.old request opens.old reserves.old helds.old result records.new opens.new reserves.new helds.new }
{
    let mut desk = desk_of(day, records);
    let mut sheet = Sheet {
        opens,
        reserves,
        helds,
    };
    let answer = book(file, &mut desk, &mut sheet, request);
    store(records, &desk.rows);
    Reply::new(answer, desk.day)
}

// Drops the booking of a name: refusals 1 to 7, 14, 15, 11, 16, 19, which alter nothing lent.
pub fn playback_drop(
    file: &[u8],
    day: Day,
    records: &mut [Booking],
    name: u32,
    opens: &mut [u64],
    reserves: &mut [u64],
    helds: &mut [u64],
) -> Reply
    ensures { DropsOver file.now day records.old name opens.old reserves.old helds.old result records.new opens.new reserves.new helds.new }
{
    let mut desk = desk_of(day, records);
    let mut sheet = Sheet {
        opens,
        reserves,
        helds,
    };
    let answer = drop_booking(file, &mut desk, &mut sheet, name);
    store(records, &desk.rows);
    Reply::new(answer, desk.day)
}

// Plays the day's current round and writes its report: refusals 1 to 7, 14, 15, 16, 23, 11, which alter nothing lent. No sheet
// is looked at.
pub fn playback_play(file: &[u8], day: Day, records: &[Booking], report: &mut [Line]) -> Reply
    ensures { PlaysOver file.now day records.now report.old result report.new }
{
    let mut desk = desk_of(day, records);
    let played = play(file, &mut desk, report.len() as u64);
    store(report, played.lines());
    Reply::new(played.answer, desk.day)
}

// Opens a day and carries the journal's entries out in order, as far as the log has room. An opening that is refused, with 14, 15 or
// 11, changes nothing lent.
pub fn playback_replay(
    file: &[u8],
    rounds: u64,
    disk: u64,
    memory: u64,
    records: &mut [Booking],
    journal: &[u64],
    log: &mut [u64],
    opens: &mut [u64],
    reserves: &mut [u64],
    helds: &mut [u64],
) -> Replayed
    ensures { ReplaysOver file.now rounds disk memory records.old journal.now log.old opens.old reserves.old helds.old result records.new log.new opens.new reserves.new helds.new }
{
    let mut desk = desk_of(Day::default(), records);
    let mut sheet = Sheet {
        opens,
        reserves,
        helds,
    };
    let answer = replay(
        file, &mut desk, &mut sheet, rounds, disk, memory, journal, log,
    );
    store(records, &desk.rows);
    Replayed::new(answer, desk.day)
}
