// The calls on a film file: each answers plain numbers, 0 where there is none.
ghost use Rattle.std.specs.Prelude.{◌≡◌};
ghost use Rattle.limits.specs.Numbered.{numbered};
ghost use Rattle.reader.specs.Rounds.{round_size_of};
ghost use Rattle.reader.specs.Summary.{summary_of};
ghost use Rattle.interface.specs.FilmCalls.{film_of, entry_of, figures_of, size_of};

use limits::refusals::Refusal;
use reader::cursor::{Entry, Reader, next, start};
use reader::rounds::round_size;
use reader::summary;

// An entry of a film file: its refusal, or 0; 1 if there is an entry, and 0 if there is no more; the film's number and round
// count.
#[repr(C)]
#[derive(Clone, Copy, PartialEq, Eq, Debug)]
pub struct Film {
    pub refusal: u32,
    pub more: u32,
    pub number: u32,
    pub rounds: u32,
}

// A film's summary: the refusal, or 0; total, largest size and mean size in bytes.
#[repr(C)]
#[derive(Clone, Copy, PartialEq, Eq, Debug)]
pub struct Figures {
    pub refusal: u32,
    pub total: u64,
    pub largest: u64,
    pub mean: u64,
}

// A round's size: the refusal, or 0; 1 if the film has that round; its bytes.
#[repr(C)]
#[derive(Clone, Copy, PartialEq, Eq, Debug)]
pub struct Size {
    pub refusal: u32,
    pub exists: u32,
    pub bytes: u64,
}

impl From<Result<Option<Entry>, u32>> for Film {
    ghost from_gives = { λ answer film. film ≡ film_of answer };

    fn from(answer: Result<Option<Entry>, u32>) -> Film {
        let none = Film {
            refusal: 0,
            more: 0,
            number: 0,
            rounds: 0,
        };
        match answer {
            Ok(Some(entry)) => Film {
                more: 1,
                number: u32::from(entry.number),
                rounds: u32::from(entry.rounds),
                ..none
            },
            Ok(None) => none,
            Err(refusal) => Film { refusal, ..none },
        }
    }
}

impl From<Result<summary::Figures, Refusal>> for Figures {
    ghost from_gives = { λ answer figures. figures ≡ figures_of (numbered answer) };

    fn from(answer: Result<summary::Figures, Refusal>) -> Figures {
        match answer {
            Ok(figures) => Figures {
                refusal: 0,
                total: figures.total,
                largest: figures.largest,
                mean: figures.mean,
            },
            Err(refusal) => Figures {
                refusal: refusal.number(),
                total: 0,
                largest: 0,
                mean: 0,
            },
        }
    }
}

impl From<Result<Option<u64>, Refusal>> for Size {
    ghost from_gives = { λ answer size. size ≡ size_of (numbered answer) };

    fn from(answer: Result<Option<u64>, Refusal>) -> Size {
        let none = Size {
            refusal: 0,
            exists: 0,
            bytes: 0,
        };
        match answer {
            Ok(Some(bytes)) => Size {
                exists: 1,
                bytes,
                ..none
            },
            Ok(None) => none,
            Err(refusal) => Size {
                refusal: refusal.number(),
                ..none
            },
        }
    }
}

// The entry that the film reader gives at a position, from 0.
pub fn film_at(file: &[u8], position: u64) -> Film
    ensures { result ≡ film_of (entry_of file.now position) }
{
    let mut reader = Reader {
        position: position as usize,
        ..start(file)
    };
    Film::from(next(file, &mut reader))
}

// The summary of a film.
pub fn summary_of(file: &[u8], film: u64) -> Figures
    ensures { result ≡ figures_of (summary_of file.now film) }
{
    Figures::from(summary::summary(file, film))
}

// The size of a film's round, from 0.
pub fn size_at(file: &[u8], film: u64, round: u64) -> Size
    ensures { result ≡ size_of (round_size_of file.now film round) }
{
    Size::from(round_size(file, film, round))
}
