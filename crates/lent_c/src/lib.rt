// The functions for C and Rust, as include/playback.h has them: each calls the function of its name in crate `lent`.
#![tactic(auto)]

ghost use Rattle.std.specs.Prelude.{◌≡◌, length};
ghost use Rattle.films.specs.Questions as questions;
ghost use Rattle.films.specs.Layout as layout;
ghost use Rattle.films.specs.Decode.{films_of};
ghost use Rattle.retrieval.specs.Schedule.{sends};
ghost use Rattle.retrieval.specs.LeastReserve.{Least};
ghost use Rattle.reader.specs.Rounds.{round_size_of};
ghost use Rattle.reader.specs.Summary.{summary_of};
ghost use Rattle.limits.specs.Numbered.{answer_number};
ghost use Rattle.planning.specs.Answers.{scheduled, schedule_out, reserved};
ghost use Rattle.interface.specs.FilmCalls.{film_of, entry_of, figures_of, size_of};
ghost use Rattle.interface.specs.PlanCalls.{reserve_of};
ghost use Rattle.interface.specs.ReplayCall.{ReplaysOver};
ghost use Rattle.interface.specs.DeskCalls.{OpensOver, BooksOver, DropsOver, PlaysOver};

use interface::film_calls::{Figures, Film, Size};
use interface::plan_calls::Reserve;
use interface::replay_call::Replayed;
use interface::reply::Reply;
use model::{Booking, Day, Line, Request};

// 0, or the number of the first question, 1 to 7, that the file says no to.
#[unsafe(no_mangle)]
pub extern "C" fn playback_verdict(file: &[u8]) -> u32
    ensures { result ≡ questions.verdict file.now }
{
    lent::exports::playback_verdict(file)
}

// The entry that the film reader gives at a position, from 0: refusals 1 to 7.
#[unsafe(no_mangle)]
pub extern "C" fn playback_film(file: &[u8], position: u64) -> Film
    ensures { result ≡ film_of (entry_of file.now position) }
{
    lent::exports::playback_film(file, position)
}

// The summary of a film: refusals 1 to 8.
#[unsafe(no_mangle)]
pub extern "C" fn playback_summary(file: &[u8], film: u64) -> Figures
    ensures { result ≡ figures_of (summary_of file.now film) }
{
    lent::exports::playback_summary(file, film)
}

// The size of a film's round, from 0: refusals 1 to 8.
#[unsafe(no_mangle)]
pub extern "C" fn playback_round_size(file: &[u8], film: u64, round: u64) -> Size
    ensures { result ≡ size_of (round_size_of file.now film round) }
{
    lent::exports::playback_round_size(file, film, round)
}

// Writes the p + n read totals of a film: 0, or a refusal, 1 to 12, which writes nothing.
#[unsafe(no_mangle)]
pub extern "C" fn playback_schedule(
    file: &[u8],
    film: u64,
    prefetch: u64,
    reserve: u64,
    totals: &mut [u64],
) -> u32
    ensures answer { result ≡ answer_number (scheduled file.now film prefetch reserve (length totals.old)) }
    ensures written { totals.new ≡ schedule_out file.now film prefetch reserve totals.old }
{
    lent::exports::playback_schedule(file, film, prefetch, reserve, totals)
}

// The least reserve of a film for a memory cap: refusals 1 to 9 and 13.
#[unsafe(no_mangle)]
pub extern "C" fn playback_least_reserve(file: &[u8], film: u64, prefetch: u64, cap: u64) -> Reserve
    ensures answer { result ≡ reserve_of (reserved file.now film prefetch cap) }
    ensures least { result.refusal ≡ 0 → Least (sends prefetch (layout.sizes_of (films_of file.now) film)) cap result.bytes }
{
    lent::exports::playback_least_reserve(file, film, prefetch, cap)
}

// Opens a day: refusals 14, 15, 11, which leave the day before. No record and no film file is looked at.
#[unsafe(no_mangle)]
pub extern "C" fn playback_open(
    day: Day,
    rounds: u64,
    disk: u64,
    memory: u64,
    opens: &mut [u64],
    reserves: &mut [u64],
    helds: &mut [u64],
) -> Reply
    ensures { OpensOver day rounds disk memory opens.old reserves.old helds.old result opens.new reserves.new helds.new }
{
    lent::exports::playback_open(day, rounds, disk, memory, opens, reserves, helds)
}

// Books: refusals 1 to 7, 14, 15, 11, 16, 18, 8, 9, 10, 20, 12, 21, 17, 22. A refusal alters nothing lent, but that 22 leaves the
// sheet of the bookings as they stand.
#[unsafe(no_mangle)]
pub extern "C" fn playback_book(
    file: &[u8],
    day: Day,
    records: &mut [Booking],
    request: Request,
    opens: &mut [u64],
    reserves: &mut [u64],
    helds: &mut [u64],
) -> Reply
    ensures { BooksOver file.now day records.old request opens.old reserves.old helds.old result records.new opens.new reserves.new helds.new }
{
    lent::desk::playback_book(file, day, records, request, opens, reserves, helds)
}

// Drops the booking of a name: refusals 1 to 7, 14, 15, 11, 16, 19, which alter nothing lent.
#[unsafe(no_mangle)]
pub extern "C" fn playback_drop(
    file: &[u8],
    day: Day,
    records: &mut [Booking],
    name: u32,
    opens: &mut [u64],
    reserves: &mut [u64],
    helds: &mut [u64],
) -> Reply
    ensures { DropsOver file.now day records.old name opens.old reserves.old helds.old result records.new opens.new reserves.new helds.new }
{
    lent::desk::playback_drop(file, day, records, name, opens, reserves, helds)
}

// Plays the day's current round and writes its report: refusals 1 to 7, 14, 15, 16, 23, 11, which alter nothing lent. No sheet
// is looked at.
#[unsafe(no_mangle)]
pub extern "C" fn playback_play(
    file: &[u8],
    day: Day,
    records: &[Booking],
    report: &mut [Line],
) -> Reply
    ensures { PlaysOver file.now day records.now report.old result report.new }
{
    lent::desk::playback_play(file, day, records, report)
}

// Opens a day and carries the journal's entries out in order, as far as the log has room. An opening that is refused, with 14, 15 or
// 11, changes nothing lent.
#[unsafe(no_mangle)]
pub extern "C" fn playback_replay(
    file: &[u8],
    rounds: u64,
    disk: u64,
    memory: u64,
    records: &mut [Booking],
    journal: &[u64],
    log: &mut [u64],
    opens: &mut [u64],
    reserves: &mut [u64],
    helds: &mut [u64],
) -> Replayed
    ensures { ReplaysOver file.now rounds disk memory records.old journal.now log.old opens.old reserves.old helds.old result records.new log.new opens.new reserves.new helds.new }
{
    lent::desk::playback_replay(
        file, rounds, disk, memory, records, journal, log, opens, reserves, helds,
    )
}
