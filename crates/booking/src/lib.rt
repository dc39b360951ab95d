// Booking: equal to the model's call, for every input.
#![tactic(auto)]

pub mod append;
pub mod request;

ghost use Rattle.std.specs.Prelude.{◌≡◌, take};
ghost use Rattle.laws.specs.Questions.{refusal};
ghost use Rattle.retrieval.specs.Stored.{InRange};
ghost use Rattle.model.specs.Calls.{book_questions};
ghost use Rattle.model.specs.Code.{state_in, SameLists};
ghost use Rattle.model.specs.FirstFit.{AnswersFirst};
ghost use Rattle.model.specs.Fit.{FitsAt, first_of};
ghost use Rattle.search.specs.Fit.{query_in, fits_at, answer_of, Window};
ghost use Rattle.questions.specs.Given.{setting_at};
ghost use Rattle.questions.specs.Numbers.{asks_in};
ghost use Rattle.booking.specs.Contract.{booked, Books};
ghost use Rattle.booking.specs.Placed.{Passed};

use append::sum_appended;
use arrayvec::ArrayVec;
use films::file::FilmFile;
use limits::bounds::MAX_BOOKINGS;
use limits::refusals::Refusal;
use load::stream::{Stream, streams_of};
use model::{Answer, Day, Desk, Request, Sheet};
use questions::standing::read_standing;
use request::{ask_own, record_of, requested};
use rounds::sheet::sum_sheet;
use search::first_start;

// The first start of the request's window at which its stream fits beside the standing ones, whose sheet is the day's.
fn start_in_window(
    file: &[u8],
    standing: &[Stream],
    stream: Stream,
    day: Day,
    sheet: &Sheet<'_>,
    request: Request,
) -> Option<u64>
    requires in_range { InRange file.now stream.at stream.rounds stream.prefetch stream.reserve }
    requires window { Window (query_in file.now standing.now stream day sheet.now) request.last }
    ensures { result ≡ answer_of (first_of (fits_at (query_in file.now standing.now stream day sheet.now)) request.first request.last) }
{
    first_start(
        file,
        standing,
        stream,
        day,
        &*sheet.opens,
        &*sheet.reserves,
        &*sheet.helds,
        request.first,
        request.last,
    )
}

// Places a request whose questions but 22 have passed, by the streams of the standing bookings and its own: the sheet of the
// standing bookings is summed, and the first start of the window that fits gets a record, with which the rounds that it changes
// are summed again. The file is a slice, of which a proof knows that each byte is below 256, and so that a film's number fits 16 bits.
fn place(
    file: &[u8],
    standing: ArrayVec<Stream, MAX_BOOKINGS>,
    stream: Stream,
    desk: &mut Desk,
    sheet: &mut Sheet<'_>,
    request: Request,
) -> Result<u64, Refusal>
    requires { Passed file.now desk.old sheet.old request standing.items stream }
    ensures leaves { Books file.now request desk.old sheet.old (booked result) desk.new sheet.new }
    ensures places { desk.new.places ≡ desk.old.places }
    ensures lists { SameLists sheet.old sheet.new }
{
    sum_sheet(file, &standing, 0, desk.day.rounds as usize, sheet);
    let Some(start) = start_in_window(file, &standing, stream, desk.day, sheet, request) else {
        return Err(Refusal::NoStart);
    };
    let placed = Stream {
        start: start as usize,
        ..stream
    };
    sum_appended(file, standing, placed, sheet);
    desk.rows[desk.day.count as usize] = record_of(request, start);
    desk.day.count += 1;
    Ok(start)
}

// A booking's start where the file's questions, 14, 15, 11 and 16 have passed.
fn start_standing(
    file: &FilmFile<'_>,
    desk: &mut Desk,
    sheet: &mut Sheet<'_>,
    request: Request,
) -> Result<u64, Refusal>
    requires { refusal (asks_in file.now.bytes.now desk.old sheet.old) ≡ 0 }
    ensures leaves { Books file.now.bytes.now request desk.old sheet.old (booked result) desk.new sheet.new }
    ensures places { desk.new.places ≡ desk.old.places }
    ensures lists { SameLists sheet.old sheet.new }
{
    ask_own(file, desk, request)?;
    let standing = streams_of(&file.films, &desk.rows[..desk.day.count as usize]);
    let stream = requested(&file.films, request);
    place(file.bytes, standing, stream, desk, sheet, request)
}

// A booking's start.
fn start(
    file: &[u8],
    desk: &mut Desk,
    sheet: &mut Sheet<'_>,
    request: Request,
) -> Result<u64, Refusal>
    ensures leaves { Books file.now request desk.old sheet.old (booked result) desk.new sheet.new }
    ensures places { desk.new.places ≡ desk.old.places }
    ensures lists { SameLists sheet.old sheet.new }
{
    let file = read_standing(
        file,
        desk,
        sheet.opens.len(),
        sheet.reserves.len(),
        sheet.helds.len(),
    )?;
    start_standing(&file, desk, sheet, request)
}

// The answer that tells a booking's start, or its refusal.
fn answer(start: Result<u64, Refusal>) -> Answer
    ensures { result ≡ booked start }
{
    match start {
        Ok(start) => Answer::Booked(start),
        Err(refusal) => Answer::Refused(refusal.number()),
    }
}

// Booking where the file's questions, 14, 15, 11 and 16 have passed.
pub fn book_standing(
    file: &FilmFile<'_>,
    desk: &mut Desk,
    sheet: &mut Sheet<'_>,
    request: Request,
) -> Answer
    requires { refusal (asks_in file.now.bytes.now desk.old sheet.old) ≡ 0 }
    ensures leaves { Books file.now.bytes.now request desk.old sheet.old result desk.new sheet.new }
    ensures places { desk.new.places ≡ desk.old.places }
    ensures lists { SameLists sheet.old sheet.new }
{
    answer(start_standing(file, desk, sheet, request))
}

// Booking: the answer, the day, every record place and every place of the sheet afterwards are the model's, for every input.
// Where the questions before 22 pass, a booking starts in the first round of its window at which some schedules fit, and is
// refused 22 exactly when there is none.
pub fn book(file: &[u8], desk: &mut Desk, sheet: &mut Sheet<'_>, request: Request) -> Answer
    ensures leaves { Books file.now request desk.old sheet.old result desk.new sheet.new }
    ensures first { refusal (book_questions (setting_at file.now desk.old.day) (state_in desk.old sheet.old) request) ≡ 0 → AnswersFirst (FitsAt (setting_at file.now desk.old.day) (take desk.old.day.count desk.old.rows) request) request.first request.last result }
    ensures places { desk.new.places ≡ desk.old.places }
    ensures lists { SameLists sheet.old sheet.new }
{
    answer(start(file, desk, sheet, request))
}
