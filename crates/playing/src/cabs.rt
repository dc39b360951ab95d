// The cabs served in a round.
ghost use Rattle.std.specs.Prelude.{◌≡◌, ◌≤◌, take};
ghost use Rattle.std.specs.Int.Count.{ones};
ghost use Rattle.limits.specs.Bounds.{max_bookings};
ghost use Rattle.model.specs.Calls.{cabs_joined};
ghost use Rattle.questions.specs.Given.{setting_at};
ghost use Rattle.rounds.specs.Kept.{cabs_in};

use films::file::FilmFile;
use load::stream::{Stream, stream_of};
use model::Desk;

// The cabs that the stream keeps busy in round t: its own in rounds s+p to s+p+n-1, none in others.
#[tactic(auto, unfolding(load::specs::Stream::shows_in, load::specs::Stream::open_in))]
fn cabs_in(x: Stream, t: usize) -> u64
    ensures { result ≡ cabs_in t x }
{
    if x.open_in(t) && x.prefetch <= t - x.start {
        x.cabs
    } else {
        0
    }
}

// The count of cab bits of the films showing in the day's current round.
pub fn cabs_served(film_file: &FilmFile<'_>, desk: &Desk) -> u64
    requires { desk.now.day.count ≤ max_bookings }
    ensures { result ≡ ones (cabs_joined (setting_at film_file.now.bytes.now desk.now.day) desk.now.day.now 0 (take desk.now.day.count desk.now.rows)) }
{
    let count = desk.day.count as usize;
    let now = desk.day.now as usize;
    let joined = desk.rows[..count].iter().fold(0u64, |taken, b| {
        taken | cabs_in(stream_of(&film_file.films, *b), now)
    });
    joined.count_ones() as u64
}
