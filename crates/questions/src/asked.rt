// The questions that several calls put to a day and its sheet: 14, 15 and 11.
ghost use Rattle.std.specs.Prelude.{◌≡◌};
ghost use Rattle.laws.specs.Questions.{refusal};
ghost use Rattle.limits.specs.Refusals.{number};
ghost use Rattle.questions.specs.Numbers.{rounds_hold, day_holds, limits_hold, sheet_holds, day_asks};

use limits::bounds::{MAX_DAY, MAX_DISK, MAX_MEMORY};
use limits::refusals::Refusal;
use model::Day;

// Is T 1 to 86,400?
#[tactic(auto, unfolding(crate::specs::Numbers::rounds_hold))]
fn rounds_hold(rounds: u64) -> bool
    ensures { result ≡ rounds_hold rounds }
{
    (1..=MAX_DAY).contains(&rounds)
}

// Is T in range and `now` at most T?
#[tactic(auto, unfolding(crate::specs::Numbers::day_holds))]
pub fn day_holds(day: Day) -> bool
    ensures { result ≡ day_holds day }
{
    rounds_hold(day.rounds) && day.now <= day.rounds
}

// Are both limits in range?
#[tactic(auto, unfolding(crate::specs::Numbers::limits_hold))]
pub fn limits_hold(disk: u64, memory: u64) -> bool
    ensures { result ≡ limits_hold disk memory }
{
    disk <= MAX_DISK && memory <= MAX_MEMORY
}

// Has every sheet list T places?
#[tactic(auto, unfolding(crate::specs::Numbers::sheet_holds))]
pub fn sheet_holds(rounds: u64, opens: usize, reserves: usize, helds: usize) -> bool
    ensures { result ≡ sheet_holds rounds opens reserves helds }
{
    rounds <= opens as u64 && rounds <= reserves as u64 && rounds <= helds as u64
}

// 14, 15 and 11, of a day and the lengths of its sheet's lists.
#[tactic(auto, unfolding(crate::specs::Numbers::day_asks))]
pub fn ask_day(day: Day, opens: usize, reserves: usize, helds: usize) -> Result<(), Refusal>
    ensures { number result ≡ refusal (day_asks day opens reserves helds) }
{
    if !day_holds(day) {
        return Err(Refusal::DayRounds);
    }
    if !limits_hold(day.disk, day.memory) {
        return Err(Refusal::DayLimits);
    }
    if !sheet_holds(day.rounds, opens, reserves, helds) {
        return Err(Refusal::NoRoom);
    }
    Ok(())
}
