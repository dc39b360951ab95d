// The file's first section: its head and its entries.
ghost use Rattle.std.specs.Prelude.{◌≡◌, ◌≤◌, length, IfOk};
ghost use Rattle.laws.specs.Questions.{refusal};
ghost use Rattle.limits.specs.Bounds.{max_films};
ghost use Rattle.limits.specs.Refusals.{number};
ghost use Rattle.films.specs.Questions.{films_in, count_at, head_questions, rounds_in_range, entry_questions};
ghost use Rattle.films.specs.Catalogue.{rises, listed};

use crate::file::Entry;
use crate::words::half_at;
use arrayvec::ArrayVec;
use limits::bounds::{MAX_FILMS, MAX_ROUNDS};
use limits::refusals::Refusal;

// Are the count and the entries there, and is the count in range? The count.
#[tactic(auto, using(std::proofs::lemmas::Bool::Decides::nat_tests), unfolding(crate::specs::Questions::head_questions))]
pub fn head(file: &[u8]) -> Result<usize, Refusal>
    ensures answer { number result ≡ refusal (head_questions file.now) }
    ensures count { IfOk result (λ count. count ≡ films_in file.now) }
{
    if file.len() < 2 {
        return Err(Refusal::Truncated);
    }
    let count = usize::from(half_at(file, 0));
    if count < 1 || MAX_FILMS < count {
        return Err(Refusal::FilmCount);
    }
    if file.len() < 2 + 4 * count {
        return Err(Refusal::Truncated);
    }
    Ok(count)
}

// Does a film's number exceed the one before? The first entry has none before it.
fn rises(before: Option<u16>, film: u16) -> bool
    ensures { result ≡ rises before film }
{
    before.is_none_or(|before| before < film)
}

// Is a round count in range?
#[tactic(auto, using(std::proofs::lemmas::Bool::Decides::nat_tests), unfolding(crate::specs::Questions::rounds_in_range))]
fn few(rounds: u16) -> bool
    ensures { result ≡ rounds_in_range rounds }
{
    1 <= rounds && usize::from(rounds) <= MAX_ROUNDS
}

// The entries, each with its questions in order.
pub fn entries(file: &[u8], count: usize) -> Result<ArrayVec<Entry, MAX_FILMS>, Refusal>
    requires count { count ≡ films_in file.now }
    requires few { count ≤ max_films }
    requires there { count_at file.now ≤ length file.now }
    ensures answer { number result ≡ refusal (entry_questions file.now 0 count) }
    ensures list { IfOk result (λ films. films.items ≡ listed file.now) }
{
    let mut films = ArrayVec::new();
    let mut at = 6 + 4 * count;
    let mut before = None;
    for i in 0..count {
        let film = half_at(file, 2 + 4 * i);
        let rounds = half_at(file, 4 + 4 * i);
        if !rises(before, film) {
            return Err(Refusal::FilmOrder);
        }
        if !few(rounds) {
            return Err(Refusal::RoundCount);
        }
        films.push(Entry {
            number: film,
            rounds,
            at: at as u32,
        });
        at += 4 * usize::from(rounds);
        before = Some(film);
    }
    Ok(films)
}
