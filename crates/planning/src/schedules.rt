// The just-in-time totals of a film, written to a lent list.
ghost use Rattle.std.specs.Prelude.{◌≡◌, [], ◌∷◌, ◌++◌, ◌+◌, ◌≤◌, length, drop};
ghost use Rattle.laws.specs.Questions.{Answers};
ghost use Rattle.laws.specs.Sums.{sum};
ghost use Rattle.limits.specs.Numbered.{numbered, answer_number};
ghost use Rattle.films.specs.Layout.{sizes_of};
ghost use Rattle.films.specs.Decode.{films_of};
ghost use Rattle.films.specs.Sizes.{sizes};
ghost use Rattle.retrieval.specs.JustInTime.{just_in_time};
ghost use Rattle.retrieval.specs.Stored.{sends_in, max_held};
ghost use Rattle.planning.specs.Answers.{answer_values, Planned, plan_totals, schedule_questions, scheduled, schedule_out};

use films::file::FilmFile;
use films::film::Sizes;
use limits::bounds::{MAX_PREFETCH, MAX_RESERVE};
use limits::refusals::Refusal;
use retrieval::{Schedule, larger};

// The film's total: the sum of its sizes. A loop, since no proof is found that the sum of a chain over the rounds fits.
fn total(film: &Sizes<'_>) -> u64
    ensures sum { result ≡ sum (sizes film.now.file.now film.now.at film.now.rounds) }
    ensures small { result ≤ max_held }
{
    let mut bytes = 0;
    for i in 0..film.rounds {
        bytes += film.get(i);
    }
    bytes
}

// Writes a film's just-in-time totals to the first places of the list, one for each round, by the paper's recursion from the last
// round backward: `sent` is what the film has sent by the end of a round, `due` the total after it.
fn write_totals(out: &mut [u64], film: &Schedule<'_>)
    requires { film.now.prefetch + film.now.sizes.rounds ≤ length out.old }
    ensures { out.new ≡ just_in_time film.now.reserve 0 (sends_in film.now.sizes film.now.prefetch) ++ drop (film.now.prefetch + film.now.sizes.rounds) out.old }
{
    let mut sent = total(&film.sizes);
    let mut due = sent;
    for k in (0..film.rounds()).rev() {
        due = larger(sent + film.reserve, due) - film.reserve;
        out[k] = due;
        sent -= film.send_at(k);
    }
}

// The answer for a film by its sizes. Nothing is written before the last question is put.
fn plan(film: &Sizes<'_>, p: u64, b: u64, out: &mut [u64]) -> Result<u64, Refusal>
    ensures { Planned (sizes film.now.file.now film.now.at film.now.rounds) p b out.old result out.new }
{
    if MAX_PREFETCH < p {
        return Err(Refusal::Prefetch);
    }
    if MAX_RESERVE < b {
        return Err(Refusal::Reserve);
    }
    let film = Schedule {
        sizes: *film,
        prefetch: p as usize,
        reserve: b,
    };
    if out.len() < film.rounds() {
        return Err(Refusal::NoRoom);
    }
    if !film.exists() {
        return Err(Refusal::NoSchedule);
    }
    write_totals(out, &film);
    Ok(film.rounds() as u64)
}

// The just-in-time schedule of a film of the file, with p pre-fetch rounds and a reserve of b bytes per round: its p + n totals
// in the first places of the lent list, and how many they are; or the first question that says no.
pub fn schedule(file: &[u8], film: u64, p: u64, b: u64, out: &mut [u64]) -> Result<u64, Refusal>
    ensures answer { numbered result ≡ scheduled file.now film p b (length out.old) }
    ensures places { out.new ≡ schedule_out file.now film p b out.old }
    ensures said { Answers (schedule_questions file.now film p b (length out.old)) (length (plan_totals (sizes_of (films_of file.now) film) p b) ∷ []) (answer_number (numbered result)) (answer_values (numbered result)) }
{
    let films = FilmFile::read(file)?;
    let sizes = films.sizes(film).ok_or(Refusal::NoFilm)?;
    plan(&sizes, p, b, out)
}
