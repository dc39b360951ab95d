// A film file as a replay has it: read once, and lent to each entry's call.
ghost use Rattle.std.specs.Prelude.{◌≡◌};
ghost use Rattle.std.specs.Result.{ForOk};
ghost use Rattle.limits.specs.Refusals.{number};
ghost use Rattle.films.specs.Questions as questions;

use films::file::FilmFile;
use limits::refusals::Refusal;

// The file's bytes, and its films or its refusal.
#[derive(Drop)]
pub struct LentFile<'a> {
    pub bytes: &'a [u8],
    pub films: Result<FilmFile<'a>, Refusal>,
    ghost verdict: { number films ≡ questions.verdict bytes.now },
    ghost same_bytes: { ForOk films (λ read. read.bytes.now ≡ bytes.now) },
}

impl<'a> LentFile<'a> {
    pub fn read(bytes: &'a [u8]) -> LentFile<'a>
        ensures { result.bytes.now ≡ bytes.now }
    {
        LentFile {
            bytes,
            films: FilmFile::read(bytes),
        }
    }
}
