// Dropping a booking.
#![tactic(auto)]

pub mod removal;
pub mod standing;

ghost use Rattle.std.specs.Prelude.{◌≡◌};
ghost use Rattle.laws.specs.Questions.{refusal};
ghost use Rattle.model.specs.Code.{state_in, SameLists};
ghost use Rattle.questions.specs.Given.{setting_at};
ghost use Rattle.questions.specs.Numbers.{asks_in};
ghost use Rattle.dropping.specs.Contract.{Drops};

use crate::removal::remove;
use crate::standing::sum_standing;
use films::file::FilmFile;
use limits::refusals::Refusal;
use model::{Answer, Desk, Sheet};
use questions::standing::read_standing;

// The drop where the file's questions, 14, 15, 11 and 16 have passed.
pub fn drop_standing(
    film_file: &FilmFile<'_>,
    desk: &mut Desk,
    sheet: &mut Sheet<'_>,
    name: u32,
) -> Answer
    requires { refusal (asks_in film_file.now.bytes.now desk.old sheet.old) ≡ 0 }
    ensures drops { Drops (setting_at film_file.now.bytes.now desk.old.day) (state_in desk.old sheet.old) name result desk.new sheet.new }
    ensures lists { SameLists sheet.old sheet.new }
{
    if !remove(desk, name) {
        return Answer::Refused(Refusal::NoName.number());
    }
    sum_standing(film_file, desk, sheet);
    Answer::Dropped
}

// Takes the booking of this name out of the list: the gap is closed, the place freed is zeroed, and the sheet is worked out
// from the rest. Refused, everything stays.
pub fn drop_booking(file: &[u8], desk: &mut Desk, sheet: &mut Sheet<'_>, name: u32) -> Answer
    ensures drops { Drops (setting_at file.now desk.old.day) (state_in desk.old sheet.old) name result desk.new sheet.new }
    ensures lists { SameLists sheet.old sheet.new }
{
    match read_standing(
        file,
        desk,
        sheet.opens.len(),
        sheet.reserves.len(),
        sheet.helds.len(),
    ) {
        Ok(film_file) => drop_standing(&film_file, desk, sheet, name),
        Err(refusal) => Answer::Refused(refusal.number()),
    }
}
