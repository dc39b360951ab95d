// The least reserve of a film, by bisection.
ghost use Rattle.std.specs.Prelude.{◌≡◌, [], ◌∷◌, ℕ};
ghost use Rattle.limits.specs.Numbered.{numbered, answer_number};
ghost use Rattle.films.specs.Layout.{sizes_of};
ghost use Rattle.films.specs.Decode.{films_of};
ghost use Rattle.films.specs.Sizes.{sizes};
ghost use Rattle.laws.specs.Questions.{refusal, Answers};
ghost use Rattle.laws.specs.Sums as sums;
ghost use Rattle.retrieval.specs.Schedule.{sends};
ghost use Rattle.retrieval.specs.LeastReserve.{Serves, Least, serves_by, least_reserve};
ghost use Rattle.retrieval.specs.Stored.{sends_in};
ghost use Rattle.planning.specs.Answers.{answer_by, answer_values, cap_questions, reserve_questions, reserved};

use films::file::FilmFile;
use films::film::Sizes;
use limits::bounds::MAX_PREFETCH;
use limits::refusals::Refusal;
use retrieval::{Schedule, carry_before, larger};

// The largest of the film's sizes. A loop, since no proof is found of a chain over the rounds.
fn largest(film: &Sizes<'_>) -> u64
    ensures { result ≡ sums.largest (sizes film.now.file.now film.now.at film.now.rounds) }
{
    let mut most: u64 = 0;
    for i in 0..film.rounds {
        most = larger(most, film.get(i));
    }
    most
}

// Does the film's reserve have a schedule with peak at most the cap? One pass, which ends at a round that holds more.
fn serves(film: &Schedule<'_>, cap: u64) -> bool
    ensures { result ≡ serves_by (sends_in film.now.sizes film.now.prefetch) cap film.now.reserve }
{
    let mut left = 0;
    for i in (0..film.sizes.rounds).rev() {
        let held = film.sizes.get(i) + left;
        if cap < held {
            return false;
        }
        left = carry_before(held, film.reserve);
    }
    left <= (film.prefetch as u64) * film.reserve
}

// The least reserve, where the film's has such a schedule.
fn search(film: &Schedule<'_>, cap: u64) -> u64
    requires { Serves (sends_in film.now.sizes film.now.prefetch) cap film.now.reserve }
    ensures { Least (sends_in film.now.sizes film.now.prefetch) cap result }
{
    let mut lo = 0;
    let mut hi = film.reserve;
    // By bisection, which no range counts.
    while lo < hi {
        let mid = lo + (hi - lo) / 2;
        let tried = Schedule {
            sizes: film.sizes,
            prefetch: film.prefetch,
            reserve: mid,
        };
        if serves(&tried, cap) {
            hi = mid;
        } else {
            lo = mid + 1;
        }
    }
    lo
}

// The answer for a film by its sizes. A reserve of the largest size serves wherever the cap is as much.
fn least(film: &Sizes<'_>, p: u64, cap: u64) -> Result<u64, Refusal>
    ensures { numbered result ≡ answer_by (refusal (cap_questions (sizes film.now.file.now film.now.at film.now.rounds) p cap)) (least_reserve (sends p (sizes film.now.file.now film.now.at film.now.rounds)) cap) }
{
    if MAX_PREFETCH < p {
        return Err(Refusal::Prefetch);
    }
    let high = largest(film);
    if cap < high {
        return Err(Refusal::Cap);
    }
    let film = Schedule {
        sizes: *film,
        prefetch: p as usize,
        reserve: high,
    };
    Ok(search(&film, cap))
}

// The least reserve of a film of the file, in bytes per round, with p pre-fetch rounds and a memory cap in bytes; or the first
// question that says no. At most 25 passes over the film.
pub fn least_reserve(file: &[u8], film: u64, p: u64, cap: u64) -> Result<u64, Refusal>
    ensures answer { numbered result ≡ reserved file.now film p cap }
    ensures least { (b : ℕ) → answer_values (numbered result) ≡ b ∷ [] → Least (sends p (sizes_of (films_of file.now) film)) cap b }
    ensures said { Answers (reserve_questions file.now film p cap) (least_reserve (sends p (sizes_of (films_of file.now) film)) cap ∷ []) (answer_number (numbered result)) (answer_values (numbered result)) }
{
    let films = FilmFile::read(file)?;
    let sizes = films.sizes(film).ok_or(Refusal::NoFilm)?;
    least(&sizes, p, cap)
}
