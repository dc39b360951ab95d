// Booking's own questions: 18, 8, 9, 10, 20, 12, 21 and 17.
ghost use Rattle.std.specs.Prelude.{◌≡◌, ◌≤◌, ◌<◌, ◌^◌, take};
ghost use Rattle.limits.specs.Bounds.{max_bookings, max_day, max_prefetch, max_reserve, max_rounds};
ghost use Rattle.limits.specs.Refusals.{number};
ghost use Rattle.laws.specs.Questions.{refusal};
ghost use Rattle.model.specs.Day.{record_of};
ghost use Rattle.model.specs.Questions.{book_own};
ghost use Rattle.load.specs.Streams.{stream_of};
ghost use Rattle.questions.specs.Given.{setting_at};
ghost use Rattle.booking.specs.Own.{window_holds, place_holds};

use films::file::{Entry, FilmFile};
use films::lookup::lookup;
use limits::bounds::{MAX_BOOKINGS, MAX_PREFETCH, MAX_RESERVE};
use limits::refusals::Refusal;
use load::names::has_name;
use load::stream::Stream;
use model::{Booking, Day, Desk, Request};
use retrieval::Schedule;

// The record of a request at a start.
pub fn record_of(request: Request, start: u64) -> Booking
    requires { (request.film < 2 ^ 16) × (request.prefetch ≤ max_prefetch) × (request.reserve ≤ max_reserve) × (start ≤ max_day) }
    ensures { result ≡ record_of request start }
{
    Booking {
        name: request.name,
        film: request.film as u16,
        start: start as u32,
        prefetch: request.prefetch as u16,
        reserve: request.reserve as u32,
        cabs: request.cabs,
    }
}

// The stream of a request, from round 0 on. It has no record yet: whether its numbers fit one is asked of the stream's own.
#[tactic(auto, unfolding(load::specs::Streams::stream_of))]
pub fn requested(films: &[Entry], request: Request) -> Stream
    ensures { result ≡ stream_of films.now (record_of request 0) }
{
    let place = lookup(films, request.film).unwrap_or_default();
    Stream {
        at: place.at,
        rounds: place.rounds,
        start: 0,
        prefetch: request.prefetch as usize,
        reserve: request.reserve,
        cabs: request.cabs,
    }
}

// Is now ≤ first ≤ last and last+p+n ≤ T?
#[tactic(auto, unfolding(crate::specs::Own::window_holds))]
fn window_holds(day: Day, request: Request, rounds: usize) -> bool
    requires { (request.prefetch ≤ max_prefetch) × (rounds ≤ max_rounds) }
    ensures { result ≡ window_holds day request rounds }
{
    let end = request.last as u128 + request.prefetch as u128 + rounds as u128;
    day.now <= request.first && request.first <= request.last && end <= day.rounds as u128
}

// Is there a place below both 256 and the list's length?
#[tactic(auto, unfolding(crate::specs::Own::place_holds))]
fn place_holds(count: u64, places: u64) -> bool
    ensures { result ≡ place_holds count places }
{
    count < MAX_BOOKINGS as u64 && count < places
}

// Booking's own questions but 22, of a request over an accepted film file.
#[tactic(auto, unfolding(model::specs::Questions::book_own, model::specs::Questions::record_questions, model::specs::Questions::window_open, model::specs::Day::exists, crate::specs::Own::window_holds, crate::specs::Own::place_holds))]
pub fn ask_own(file: &FilmFile<'_>, desk: &Desk, request: Request) -> Result<(), Refusal>
    requires { (desk.now.day.count ≤ max_bookings) × (desk.now.day.rounds ≤ max_day) }
    ensures { number result ≡ refusal (book_own (setting_at file.now.bytes.now desk.now.day) (take desk.now.day.count desk.now.rows) desk.now.day.count desk.now.places desk.now.day.now request) }
{
    if has_name(&desk.rows[..desk.day.count as usize], request.name) {
        return Err(Refusal::NameTaken);
    }
    let Some(sizes) = file.sizes(request.film) else {
        return Err(Refusal::NoFilm);
    };
    if request.prefetch > MAX_PREFETCH {
        return Err(Refusal::Prefetch);
    }
    if request.reserve > MAX_RESERVE {
        return Err(Refusal::Reserve);
    }
    if request.cabs == 0 {
        return Err(Refusal::NoCab);
    }
    let schedule = Schedule {
        sizes,
        prefetch: request.prefetch as usize,
        reserve: request.reserve,
    };
    if !schedule.exists() {
        return Err(Refusal::NoSchedule);
    }
    if !window_holds(desk.day, request, sizes.rounds) {
        return Err(Refusal::Window);
    }
    if !place_holds(desk.day.count, desk.places) {
        return Err(Refusal::ListFull);
    }
    Ok(())
}
