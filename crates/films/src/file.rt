// An accepted film file, with its catalogue.
ghost use Rattle.std.specs.Prelude.{◌≡◌, false, IfOk, IfSome, IfNone};
ghost use Rattle.limits.specs.Refusals.{number};
ghost use Rattle.films.specs.Layout.{in_file};
ghost use Rattle.films.specs.Decode.{films_of};
ghost use Rattle.films.specs.Questions as questions;
ghost use Rattle.films.specs.Catalogue.{listed};
ghost use Rattle.films.specs.Lookup.{FoundAt};

use crate::entries::{entries, head};
use crate::film::Sizes;
use crate::lookup::lookup;
use crate::sizes::tail;
use arrayvec::ArrayVec;
use limits::bounds::MAX_FILMS;
use limits::refusals::Refusal;

// A film's entry in the catalogue: its number, its rounds, and the offset of its first size.
#[derive(Clone, Copy, PartialEq, Eq, Debug, Default)]
pub struct Entry {
    pub number: u16,
    pub rounds: u16,
    pub at: u32,
}

// The bytes of an accepted file, and its films in the file's order.
#[derive(Drop)]
pub struct FilmFile<'a> {
    pub bytes: &'a [u8],
    pub films: ArrayVec<Entry, MAX_FILMS>,
    ghost accepted: { questions.verdict bytes.now ≡ 0 },
    ghost catalogue: { films.items ≡ listed bytes.now },
}

impl<'a> FilmFile<'a> {
    // The file, or the refusal of the first question that it says no to.
    pub fn read(bytes: &'a [u8]) -> Result<FilmFile<'a>, Refusal>
        ensures verdict { number result ≡ questions.verdict bytes.now }
        ensures bytes { IfOk result (λ file. file.bytes.now ≡ bytes.now) }
    {
        let count = head(bytes)?;
        let films = entries(bytes, count)?;
        tail(bytes, &films)?;
        Ok(FilmFile { bytes, films })
    }

    // A film's sizes, if the film is in the file.
    pub fn sizes(&self, film: u64) -> Option<Sizes<'a>>
        ensures bytes { IfSome result (λ sizes. sizes.file.now ≡ self.now.bytes.now) }
        ensures found { IfSome result (λ sizes. FoundAt self.now.bytes.now film sizes.at sizes.rounds) }
        ensures missing { IfNone result (in_file (films_of self.now.bytes.now) film ≡ false) }
    {
        let place = lookup(&self.films, film)?;
        Some(Sizes {
            file: self.bytes,
            at: place.at,
            rounds: place.rounds,
        })
    }
}
