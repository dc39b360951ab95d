// One command of a session: it is carried out on the day, and its answer is written as text.
#![tactic(auto)]

pub mod answer;
pub mod calls;

ghost use Rattle.std.specs.Prelude.{◌≡◌};
ghost use Rattle.limits.specs.Bounds.{hall_places};
ghost use Rattle.model.specs.Code.{SameLists};
ghost use Rattle.console.specs.Session.{start_desk, name_in};
ghost use Rattle.console.specs.Contract.{with_sheet, after_of, step_of};

use answer::write_reply;
use calls::{PLACES, carry_out};
use commands::Command;
use limits::bounds::MAX_BOOKINGS;
use model::{Booking, Day, Desk, Sheet};

// bytes that the output buffer has to have: the longest answer and report fit
pub const OUTPUT_BYTES: usize = 8192;

// Before OPEN the day has T = 0, and no booking stands.
pub fn start() -> Desk
    ensures { result ≡ start_desk }
{
    Desk {
        day: Day::default(),
        rows: [Booking::default(); MAX_BOOKINGS],
        places: PLACES,
    }
}

// The name in a command; 0 where it has none.
fn name_of(command: Option<Command>) -> u32
    ensures { result ≡ name_in command }
{
    match command {
        Some(Command::Book(request)) => request.name,
        Some(Command::Drop(name)) => name,
        _ => 0,
    }
}

// Carries a command out and writes its answer, and the report of a played round, to the front of `out`. Gives how many bytes were
// written; with an `out` of less than OUTPUT_BYTES places it does nothing.
pub fn step(
    file: &[u8],
    desk: &mut Desk,
    sheet: &mut Sheet<'_>,
    command: Option<Command>,
    out: &mut [u8],
) -> usize
    ensures after { after_of desk.new sheet.new out.new result ≡ step_of file.now (with_sheet desk.old sheet.old) command out.old }
    ensures places { desk.old.places ≡ hall_places → desk.new.places ≡ hall_places }
    ensures lists { SameLists sheet.old sheet.new }
{
    if out.len() < OUTPUT_BYTES {
        return 0;
    }
    let round = desk.day.now;
    let reply = carry_out(file, desk, sheet, command);
    write_reply(out, name_of(command), round, reply.answer, reply.lines())
}
