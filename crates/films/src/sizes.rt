// The file's second section: the count of sizes and the sizes.
ghost use Rattle.std.specs.Prelude.{◌≡◌, ◌+◌, ◌*◌, ◌≤◌, length, sum_by};
ghost use Rattle.laws.specs.Questions.{refusal};
ghost use Rattle.limits.specs.Bounds.{max_films};
ghost use Rattle.limits.specs.Refusals.{number};
ghost use Rattle.films.specs.Questions.{small_sizes, size_questions};
ghost use Rattle.films.specs.Catalogue.{listed};

use crate::file::Entry;
use crate::words::size_at;
use limits::bounds::MAX_SIZE;
use limits::refusals::Refusal;

// Are four sizes within the bound? Each is exactly if its fourth byte is 0.
fn four_small(file: &[u8], at: usize) -> bool
    requires { at + 16 ≤ length file.now }
    ensures { result ≡ small_sizes file.now at 4 }
{
    file[at + 3] | file[at + 7] | file[at + 11] | file[at + 15] == 0
}

// Are n sizes, of which there may be many? Four at a time, which takes a third of the time.
fn small(file: &[u8], from: usize, n: usize) -> bool
    requires { from + 4 * n ≤ length file.now }
    ensures { result ≡ small_sizes file.now from n }
{
    let fours = n / 4;
    (0..fours).all(|i| four_small(file, from + 16 * i))
        && (4 * fours..n).all(|i| size_at(file, from + 4 * i) <= MAX_SIZE)
}

// The rounds of the films.
fn rounds_of(films: &[Entry]) -> usize
    requires { length films.now ≤ max_films }
    ensures { result ≡ sum_by (λ film. film.rounds) films.now }
{
    films.iter().map(|film| usize::from(film.rounds)).sum()
}

// The questions after the entries of these films.
pub fn tail(file: &[u8], films: &[Entry]) -> Result<(), Refusal>
    requires few { length films.now ≤ max_films }
    requires entries { films.now ≡ listed file.now }
    ensures { number result ≡ refusal (size_questions file.now) }
{
    let from = 6 + 4 * films.len();
    if file.len() < from {
        return Err(Refusal::Truncated);
    }
    let total = rounds_of(films);
    if size_at(file, from - 4) != total as u64 {
        return Err(Refusal::SizeCount);
    }
    let end = from + 4 * total;
    if file.len() < end {
        return Err(Refusal::Truncated);
    }
    if !small(file, from, total) {
        return Err(Refusal::SizeBound);
    }
    if end < file.len() {
        return Err(Refusal::Trailing);
    }
    Ok(())
}
