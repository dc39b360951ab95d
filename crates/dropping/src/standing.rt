// The day sheet, worked out from the bookings that stand.
ghost use Rattle.std.specs.Prelude.{take};
ghost use Rattle.model.specs.Code.{SameLists};
ghost use Rattle.questions.specs.Given.{setting_at};
ghost use Rattle.questions.specs.SheetOf.{SheetOf};
ghost use Rattle.dropping.specs.Standing.{Stands};

use films::file::FilmFile;
use load::stream::streams_of;
use model::{Desk, Sheet};
use rounds::sheet::sum_sheet;

// Works the sheet's first T places out from the desk's bookings, a sound list.
pub fn sum_standing(film_file: &FilmFile<'_>, desk: &Desk, sheet: &mut Sheet<'_>)
    requires { Stands film_file.now.bytes.now desk.now sheet.old }
    ensures summed { SheetOf (setting_at film_file.now.bytes.now desk.now.day) (take desk.now.day.count desk.now.rows) sheet.old.opens.now sheet.old.reserves.now sheet.old.helds.now sheet.new.opens.now sheet.new.reserves.now sheet.new.helds.now }
    ensures lists { SameLists sheet.old sheet.new }
{
    let count = desk.day.count as usize;
    let xs = streams_of(&film_file.films, &desk.rows[..count]);
    sum_sheet(film_file.bytes, &xs, 0, desk.day.rounds as usize, sheet);
}
