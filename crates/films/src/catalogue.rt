// A file's verdict.
ghost use Rattle.std.specs.Prelude.{◌≡◌};
ghost use Rattle.limits.specs.Refusals.{number};
ghost use Rattle.films.specs.Questions as questions;

use crate::file::FilmFile;
use limits::refusals::Refusal;

// The refusal of the first question that the file says no to.
pub fn verdict(bytes: &[u8]) -> Result<(), Refusal>
    ensures { number result ≡ questions.verdict bytes.now }
{
    FilmFile::read(bytes)?;
    Ok(())
}
