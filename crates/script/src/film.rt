// A film's schedule, as a test program asks for it.
ghost use Rattle.std.specs.Prelude.{◌≡◌, true, IfOk};
ghost use Rattle.films.specs.Lookup.{FoundAt};
ghost use Rattle.retrieval.specs.JustInTime.{exists_by};
ghost use Rattle.retrieval.specs.Stored.{sends_in};

use films::file::FilmFile;
use limits::bounds::{MAX_PREFETCH, MAX_RESERVE};
use limits::refusals::Refusal;
use retrieval::Schedule;

// The schedule of a film of the file with p pre-fetch rounds and a reserve of b bytes per round, or the first question that
// says no.
pub fn schedule(file: &[u8], film: u64, p: u64, b: u64) -> Result<Schedule<'_>, Refusal>
    ensures film { IfOk result (λ s. FoundAt file.now film s.sizes.at s.sizes.rounds) }
    ensures file { IfOk result (λ s. s.sizes.file.now ≡ file.now) }
    ensures prefetch { IfOk result (λ s. s.prefetch ≡ p) }
    ensures reserve { IfOk result (λ s. s.reserve ≡ b) }
    ensures exists { IfOk result (λ s. exists_by s.reserve (sends_in s.sizes s.prefetch) ≡ true) }
{
    let films = FilmFile::read(file)?;
    let sizes = films.sizes(film).ok_or(Refusal::NoFilm)?;
    if MAX_PREFETCH < p {
        return Err(Refusal::Prefetch);
    }
    if MAX_RESERVE < b {
        return Err(Refusal::Reserve);
    }
    let schedule = Schedule {
        sizes,
        prefetch: p as usize,
        reserve: b,
    };
    if !schedule.exists() {
        return Err(Refusal::NoSchedule);
    }
    Ok(schedule)
}
