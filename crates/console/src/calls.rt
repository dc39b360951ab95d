// A command carried out on the day: each is its call.
ghost use Rattle.std.specs.Prelude.{◌≡◌, []};
ghost use Rattle.limits.specs.Bounds.{hall_places};
ghost use Rattle.model.specs.Code.{SameLists};
ghost use Rattle.playing.specs.Lines.{padded};
ghost use Rattle.console.specs.Contract.{with_sheet, Carries};

use booking::book;
use commands::Command;
use dropping::drop_booking;
use limits::bounds::{HALL_PLACES, MAX_BOOKINGS};
use limits::refusals::Refusal;
use model::{Answer, Desk, Line, Sheet};
use opening::open;
use playing::{Played, play};

// places of the program's list of bookings, and of its report
pub const PLACES: u64 = HALL_PLACES as u64;

// An answer with no report, told as a played round's is.
fn without_lines(answer: Answer) -> Played
    ensures { result ≡ record { answer = answer; lines = padded [] } }
{
    Played {
        answer,
        lines: [Line::default(); MAX_BOOKINGS],
    }
}

// Carries a command out, on a list of 64 places. A line that is no command is refused, and nothing changes.
pub fn carry_out(
    file: &[u8],
    desk: &mut Desk,
    sheet: &mut Sheet<'_>,
    command: Option<Command>,
) -> Played
    ensures carried { Carries file.now (with_sheet desk.old sheet.old) command result desk.new sheet.new }
    ensures places { desk.new.places ≡ hall_places }
    ensures lists { SameLists sheet.old sheet.new }
{
    desk.places = PLACES;
    let Some(call) = command else {
        return without_lines(Answer::Refused(Refusal::Command.number()));
    };
    match call {
        Command::Open(rounds, disk, memory) => {
            without_lines(open(&mut desk.day, sheet, rounds, disk, memory))
        }
        Command::Book(request) => without_lines(book(file, desk, sheet, request)),
        Command::Drop(name) => without_lines(drop_booking(file, desk, sheet, name)),
        Command::Play => play(file, desk, PLACES),
    }
}
