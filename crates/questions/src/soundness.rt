// Question 16, by the streams of the bookings.
ghost use Rattle.std.specs.Prelude.{◌≡◌, ◌≤◌, length};
ghost use Rattle.limits.specs.Bounds.{max_bookings, max_day};
ghost use Rattle.model.specs.Soundness.{sound_list};
ghost use Rattle.questions.specs.Given.{setting_at};
ghost use Rattle.questions.specs.Numbers.{sound_holds};

use films::file::FilmFile;
use limits::bounds::MAX_BOOKINGS;
use load::names::names_differ;
use load::records::all_basic;
use load::stream::streams_of;
use model::{Booking, Day, Desk};
use rounds::kept::rounds_kept;

// Is the list of bookings sound?
#[tactic(auto, unfolding(model::specs::Soundness::sound_list))]
pub fn sound_list(file: &FilmFile<'_>, day: Day, rows: &[Booking]) -> bool
    requires { (length rows.now ≤ max_bookings) × (day.rounds ≤ max_day) }
    ensures { result ≡ sound_list (setting_at file.now.bytes.now day) rows.now }
{
    if !names_differ(rows) {
        return false;
    }
    let xs = streams_of(&file.films, rows);
    all_basic(&xs, day.rounds) && rounds_kept(file.bytes, &xs, day)
}

// Is the list sound? At most 256 records, within the list's places, and sound.
#[tactic(auto, unfolding(crate::specs::Numbers::sound_holds))]
pub fn sound_holds(file: &FilmFile<'_>, desk: &Desk) -> bool
    requires { desk.now.day.rounds ≤ max_day }
    ensures { result ≡ sound_holds file.now.bytes.now desk.now }
{
    let count = desk.day.count;
    count <= MAX_BOOKINGS as u64
        && count <= desk.places
        && sound_list(file, desk.day, &desk.rows[..count as usize])
}
