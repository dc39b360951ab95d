// The report of a round: a line for each film open.
ghost use Rattle.std.specs.Prelude.{◌≡◌, ◌≤◌, ◌<◌, take};
ghost use Rattle.model.specs.Report.{lines_of};
ghost use Rattle.load.specs.Basic.{Playable};
ghost use Rattle.load.specs.Stream.{end_of};
ghost use Rattle.questions.specs.Given.{setting_at};
ghost use Rattle.playing.specs.Lines.{line_at};
ghost use Rattle.playing.specs.Ready.{Ready};

use arrayvec::ArrayVec;
use films::file::FilmFile;
use limits::bounds::MAX_BOOKINGS;
use load::stream::{Stream, stream_of};
use model::{Booking, Desk, Line};

// The line of a booking that is open in round t; x is its stream.
fn line_of(file: &[u8], b: Booking, x: Stream, t: usize) -> Line
    requires playable { Playable file.now x }
    requires started { x.start ≤ t }
    requires not_over { t < end_of x }
    ensures { result ≡ line_at file.now t b x }
{
    let round = x.schedule(file).round_at(t - x.start);
    Line {
        name: b.name,
        read: round.read,
        send: round.send,
        held: round.held,
    }
}

// The lines of the day's current round, one for each film open, in the order of the bookings.
pub fn lines_of(film_file: &FilmFile<'_>, desk: &Desk) -> ArrayVec<Line, MAX_BOOKINGS>
    requires { Ready film_file.now.bytes.now desk.now }
    ensures { result.items ≡ lines_of (setting_at film_file.now.bytes.now desk.now.day) desk.now.day.now (take desk.now.day.count desk.now.rows) }
{
    let count = desk.day.count as usize;
    let now = desk.day.now as usize;
    let rows = &desk.rows[..count];
    let mut lines = ArrayVec::new();
    for b in rows {
        let x = stream_of(&film_file.films, *b);
        if x.open_in(now) {
            lines.push(line_of(film_file.bytes, *b, x, now));
        }
    }
    lines
}
