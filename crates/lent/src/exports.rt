// The functions for C and Rust that no list of records is lent to.
ghost use Rattle.std.specs.Prelude.{◌≡◌, length};
ghost use Rattle.films.specs.Questions as questions;
ghost use Rattle.films.specs.Layout as layout;
ghost use Rattle.films.specs.Decode.{films_of};
ghost use Rattle.retrieval.specs.Schedule.{sends};
ghost use Rattle.retrieval.specs.LeastReserve.{Least};
ghost use Rattle.reader.specs.Rounds.{round_size_of};
ghost use Rattle.reader.specs.Summary.{summary_of};
ghost use Rattle.limits.specs.Numbered.{answer_number};
ghost use Rattle.planning.specs.Answers.{scheduled, schedule_out, reserved};
ghost use Rattle.interface.specs.FilmCalls.{film_of, entry_of, figures_of, size_of};
ghost use Rattle.interface.specs.PlanCalls.{reserve_of};
ghost use Rattle.interface.specs.DeskCalls.{OpensOver};

use films::catalogue::verdict;
use interface::desk_calls::open_day;
use interface::film_calls::{Figures, Film, Size, film_at, size_at, summary_of};
use interface::plan_calls::{Reserve, reserve_for, write_schedule};
use interface::reply::Reply;
use limits::refusals::Refusal;
use model::Day;

// 0, or the number of the first question, 1 to 7, that the file says no to.
pub fn playback_verdict(file: &[u8]) -> u32
    ensures { result ≡ questions.verdict file.now }
{
    verdict(file).err().map_or(0, Refusal::number)
}

// The entry that the film reader gives at a position, from 0: refusals 1 to 7.
pub fn playback_film(file: &[u8], position: u64) -> Film
    ensures { result ≡ film_of (entry_of file.now position) }
{
    film_at(file, position)
}

// The summary of a film: refusals 1 to 8.
pub fn playback_summary(file: &[u8], film: u64) -> Figures
    ensures { result ≡ figures_of (summary_of file.now film) }
{
    summary_of(file, film)
}

// The size of a film's round, from 0: refusals 1 to 8.
pub fn playback_round_size(file: &[u8], film: u64, round: u64) -> Size
    ensures { result ≡ size_of (round_size_of file.now film round) }
{
    size_at(file, film, round)
}

// Writes the p + n read totals of a film: 0, or a refusal, 1 to 12, which writes nothing.
pub fn playback_schedule(
    file: &[u8],
    film: u64,
    prefetch: u64,
    reserve: u64,
    totals: &mut [u64],
) -> u32
    ensures answer { result ≡ answer_number (scheduled file.now film prefetch reserve (length totals.old)) }
    ensures written { totals.new ≡ schedule_out file.now film prefetch reserve totals.old }
{
    write_schedule(file, film, prefetch, reserve, totals)
}

// The least reserve of a film for a memory cap: refusals 1 to 9 and 13.
pub fn playback_least_reserve(file: &[u8], film: u64, prefetch: u64, cap: u64) -> Reserve
    ensures answer { result ≡ reserve_of (reserved file.now film prefetch cap) }
    ensures least { result.refusal ≡ 0 → Least (sends prefetch (layout.sizes_of (films_of file.now) film)) cap result.bytes }
{
    reserve_for(file, film, prefetch, cap)
}

// Opens a day: refusals 14, 15, 11, which leave the day before. No record and no film file is looked at.
pub fn playback_open(
    day: Day,
    rounds: u64,
    disk: u64,
    memory: u64,
    opens: &mut [u64],
    reserves: &mut [u64],
    helds: &mut [u64],
) -> Reply
    ensures { OpensOver day rounds disk memory opens.old reserves.old helds.old result opens.new reserves.new helds.new }
{
    open_day(day, rounds, disk, memory, opens, reserves, helds)
}
