// The program from its film file on: what it prints of the file, of the input as it comes, and at the input's end.
#![tactic(auto)]

ghost use Rattle.std.specs.Prelude.{◌≡◌, ◌<◌, length};
ghost use Rattle.limits.specs.Bounds.{hall_places};
ghost use Rattle.limits.specs.Refusals.{number};
ghost use Rattle.model.specs.Code.{SameLists};
ghost use Rattle.lines.specs.Lines.{started};
ghost use Rattle.lines.specs.Feeding.{fed_line, after_line};
ghost use Rattle.console.specs.Session.{start_desk};
ghost use Rattle.console.specs.Contract.{with_sheet, after_of};
ghost use Rattle.program.specs.Program.{file_number};
ghost use Rattle.program.specs.Contract.{beginning_of, begin_of, served_of, ended_of};

use console::answer::write_first;
use console::{OUTPUT_BYTES, step};
use films::catalogue::verdict;
use limits::bounds::HALL_FILE;
use limits::refusals::Refusal;
use lines::Splitter;
use model::{Answer, Desk, Sheet};

// What stands between two reads: the day with its bookings, and the line that is being read.
#[derive(Clone, Copy)]
pub struct Session {
    pub desk: Desk,
    pub line: Splitter,
}

impl Session {
    // Before the first byte no day is open, and no line is begun.
    pub fn start() -> Session
        ensures { result ≡ record { desk = start_desk; line = started } }
    {
        Session {
            desk: console::start(),
            line: Splitter::start(),
        }
    }
}

// The program's questions on its film file.
#[tactic(auto, using(crate::proofs::Laws::number_long, crate::proofs::Laws::number_own))]
fn ask_film_file(file: &[u8]) -> Result<(), Refusal>
    ensures { number result ≡ file_number file.now }
{
    if HALL_FILE < file.len() {
        return Err(Refusal::FileSize);
    }
    verdict(file)
}

// The program begins with this film file. With one that is refused it ends: the refusal's text is put to the front of `out`, and the
// error is its length; with an `out` of less than OUTPUT_BYTES places no text is.
pub fn begin(file: &[u8], out: &mut [u8]) -> Result<(), usize>
    ensures { beginning_of result out.new ≡ begin_of file.now out.old }
{
    let Err(refusal) = ask_film_file(file) else {
        return Ok(());
    };
    if out.len() < OUTPUT_BYTES {
        return Err(0);
    }
    Err(write_first(out, 0, 0, Answer::Refused(refusal.number())))
}

// Feeds bytes of the input, up to the end of a line, and answers the line as `step` does. Gives how many bytes of text answer it, and
// the bytes of the input that are left.
#[tactic(auto, unfolding(crate::specs::Contract::served_of, crate::specs::Contract::answered))]
pub fn serve_line<'a>(
    file: &[u8],
    session: &mut Session,
    sheet: &mut Sheet<'_>,
    bytes: &'a [u8],
    out: &mut [u8],
) -> (usize, &'a [u8])
    ensures after { after_of session.new.desk sheet.new out.new result.0 ≡ served_of file.now (with_sheet session.old.desk sheet.old) session.old.line bytes.now out.old }
    ensures line { session.new.line ≡ fed_line session.old.line bytes.now }
    ensures rest { result.1.now ≡ after_line session.old.line bytes.now }
    ensures moved { 0 < length bytes.now → length result.1.now < length bytes.now }
    ensures places { session.old.desk.places ≡ hall_places → session.new.desk.places ≡ hall_places }
    ensures lists { SameLists sheet.old sheet.new }
{
    if bytes.is_empty() {
        return (0, bytes);
    }
    let rest = session.line.feed_line(bytes);
    if !session.line.ended {
        return (0, rest);
    }
    let command = session.line.command();
    (step(file, &mut session.desk, sheet, command, out), rest)
}

// Answers the line that the end of the input ends, if one is begun. Gives how many bytes of text answer it.
#[tactic(auto, unfolding(crate::specs::Contract::ended_of))]
pub fn serve_end(file: &[u8], session: &mut Session, sheet: &mut Sheet<'_>, out: &mut [u8]) -> usize
    ensures after { after_of session.new.desk sheet.new out.new result ≡ ended_of file.now (with_sheet session.old.desk sheet.old) session.old.line out.old }
    ensures line { session.new.line ≡ session.old.line }
    ensures places { session.old.desk.places ≡ hall_places → session.new.desk.places ≡ hall_places }
    ensures lists { SameLists sheet.old sheet.new }
{
    if session.line.ended {
        return 0;
    }
    let command = session.line.command();
    step(file, &mut session.desk, sheet, command, out)
}
