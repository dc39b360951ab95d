// The size of a film's round.
ghost use Rattle.std.specs.Prelude.{◌≡◌};
ghost use Rattle.laws.specs.Questions.{Answers};
ghost use Rattle.limits.specs.Refusals.{number};
ghost use Rattle.limits.specs.Numbered.{numbered};
ghost use Rattle.films.specs.Layout.{sizes_of};
ghost use Rattle.films.specs.Decode.{films_of};
ghost use Rattle.reader.specs.Summary.{summary_questions};
ghost use Rattle.reader.specs.Rounds.{round_size_of, size_in, round_values};

use films::file::FilmFile;
use limits::refusals::Refusal;

// The size of round i of a film, for any file, any number and any round; none past the film's last round.
pub fn round_size(file: &[u8], film: u64, i: u64) -> Result<Option<u64>, Refusal>
    ensures answer { numbered result ≡ round_size_of file.now film i }
    ensures said { Answers (summary_questions file.now film) (size_in (sizes_of (films_of file.now) film) i) (number result) (round_values result) }
{
    let file = FilmFile::read(file)?;
    let sizes = file.sizes(film).ok_or(Refusal::NoFilm)?;
    if sizes.rounds as u64 <= i {
        return Ok(None);
    }
    Ok(Some(sizes.get(i as usize)))
}
