// Opening a day.
#![tactic(auto)]

pub mod clear;

ghost use Rattle.std.specs.Prelude.{List, ℕ};
ghost use Rattle.films.specs.Layout.{Film};
ghost use Rattle.loss.specs.Loss.{loss_at};
ghost use Rattle.model.specs.Code.{setting_of, state_of, SameLists};
ghost use Rattle.model.specs.declared.Booking.{Booking};
ghost use Rattle.opening.specs.Contract.{asked, Opens};

use clear::clear;
use model::{Answer, Day, Sheet};
use questions::asked::ask_day;

// Opens a day of so many rounds with these limits: no booking stands, and the sheet's first T places are 0. Refused, the day
// before stays. No record and no film file is looked at.
pub fn open(day: &mut Day, sheet: &mut Sheet<'_>, rounds: u64, disk: u64, memory: u64) -> Answer
    ensures opened { (verdict : ℕ) (films : List Film) (rows : List Booking) (places : ℕ) → Opens (setting_of verdict films loss_at (asked rounds disk memory)) (state_of day.old rows places sheet.old.opens.now sheet.old.reserves.now sheet.old.helds.now) day.old result day.new sheet.new }
    ensures lists { SameLists sheet.old sheet.new }
{
    let asked = Day {
        rounds,
        disk,
        memory,
        now: 0,
        count: 0,
    };
    match ask_day(
        asked,
        sheet.opens.len(),
        sheet.reserves.len(),
        sheet.helds.len(),
    ) {
        Err(refusal) => Answer::Refused(refusal.number()),
        Ok(()) => {
            let rounds = rounds as usize;
            clear(sheet.opens, rounds);
            clear(sheet.reserves, rounds);
            clear(sheet.helds, rounds);
            *day = asked;
            Answer::Opened
        }
    }
}
