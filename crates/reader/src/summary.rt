// A film's summary.
ghost use Rattle.std.specs.Prelude.{◌≡◌, ◌≤◌};
ghost use Rattle.laws.specs.Questions.{Answers};
ghost use Rattle.limits.specs.Refusals.{number};
ghost use Rattle.limits.specs.Numbered.{numbered};
ghost use Rattle.films.specs.Layout.{sizes_of};
ghost use Rattle.films.specs.Decode.{films_of};
ghost use Rattle.films.specs.Sizes.{sizes};
ghost use Rattle.reader.specs.Summary as spec;

use films::file::FilmFile;
use films::film::Sizes;
use limits::refusals::Refusal;

// A film's total bytes, largest size and mean size.
#[derive(Clone, Copy, PartialEq, Eq, Debug)]
pub struct Figures {
    pub total: u64,
    pub largest: u64,
    pub mean: u64,
}

// The figures of a film's sizes.
fn figures_of(film: &Sizes<'_>) -> Figures
    requires { 1 ≤ film.now.rounds }
    ensures { result ≡ spec.figures_of (sizes film.now.file.now film.now.at film.now.rounds) }
{
    let mut total = 0;
    let mut largest = 0;
    for i in 0..film.rounds {
        let size = film.get(i);
        total += size;
        largest = largest.max(size);
    }
    Figures {
        total,
        largest,
        mean: total / film.rounds as u64,
    }
}

// The summary of a film, for any file and any number.
pub fn summary(file: &[u8], film: u64) -> Result<Figures, Refusal>
    ensures answer { numbered result ≡ spec.summary_of file.now film }
    ensures said { Answers (spec.summary_questions file.now film) (spec.figures (sizes_of (films_of file.now) film)) (number result) (spec.summary_values result) }
{
    let file = FilmFile::read(file)?;
    let sizes = file.sizes(film).ok_or(Refusal::NoFilm)?;
    Ok(figures_of(&sizes))
}
