// Playing a round of a day.
#![tactic(auto)]

pub mod cabs;
pub mod lines;

ghost use Rattle.std.specs.Prelude.{◌≡◌, ◌≤◌, [], length};
ghost use Rattle.laws.specs.Questions.{refusal};
ghost use Rattle.limits.specs.Bounds.{max_bookings};
ghost use Rattle.limits.specs.Refusals.{number, number_of};
ghost use Rattle.model.specs.declared.Answer.TheVariants.{Refused};
ghost use Rattle.questions.specs.Numbers.{standing_asks};
ghost use Rattle.playing.specs.Contract.{told_lines, Plays};
ghost use Rattle.playing.specs.Lines.{padded};
ghost use Rattle.playing.specs.Questions.{own_asks};

use cabs::cabs_served;
use films::file::FilmFile;
use limits::bounds::MAX_BOOKINGS;
use limits::refusals::Refusal;
use lines::lines_of;
use model::{Answer, Day, Desk, Line};
use questions::standing::read_standing;

// What a played round answers, and the lines of its report from the front: as many as the answer says, and blank ones behind.
#[derive(Clone, Copy, PartialEq, Eq, Debug)]
pub struct Played {
    pub answer: Answer,
    pub lines: [Line; MAX_BOOKINGS],
}

impl Played {
    // The lines of its report, without the blank ones.
    pub fn lines(&self) -> &[Line]
        ensures told { result.now ≡ told_lines self.now.answer self.now.lines }
        ensures few { length result.now ≤ max_bookings }
    {
        match self.answer {
            Answer::Played(films, _) => &self.lines[..(films as usize).min(MAX_BOOKINGS)],
            _ => &self.lines[..0],
        }
    }
}

// An answer with the lines of its report.
fn with_lines(answer: Answer, lines: &[Line]) -> Played
    requires { length lines.now ≤ max_bookings }
    ensures answer { result.answer ≡ answer }
    ensures lines { result.lines ≡ padded lines.now }
{
    let mut places = [Line::default(); MAX_BOOKINGS];
    places[..lines.len()].copy_from_slice(lines);
    Played {
        answer,
        lines: places,
    }
}

// A refusal has no line.
fn refused(refusal: Refusal) -> Played
    ensures answer { result.answer ≡ Refused (number_of refusal) }
    ensures lines { result.lines ≡ padded [] }
{
    with_lines(Answer::Refused(refusal.number()), &[])
}

// Is `now` below T, and does the report take every open film?
#[tactic(auto, unfolding(crate::specs::Questions::own_asks))]
fn ask_own(day: Day, films: u64, room: u64) -> Result<(), Refusal>
    ensures { number result ≡ refusal (own_asks day.now day.rounds films room) }
{
    if day.rounds <= day.now {
        return Err(Refusal::DayOver);
    }
    if room < films {
        return Err(Refusal::NoRoom);
    }
    Ok(())
}

// Playing where the file's questions, 14, 15 and 16 have passed.
pub fn play_standing(film_file: &FilmFile<'_>, desk: &mut Desk, room: u64) -> Played
    requires { refusal (standing_asks film_file.now.bytes.now desk.old desk.old.day.rounds desk.old.day.rounds desk.old.day.rounds) ≡ 0 }
    ensures plays { Plays film_file.now.bytes.now desk.old room result.answer (told_lines result.answer result.lines) desk.new }
    ensures lines { result.lines ≡ padded (told_lines result.answer result.lines) }
{
    let lines = lines_of(film_file, desk);
    let films = lines.len() as u64;
    if let Err(refusal) = ask_own(desk.day, films, room) {
        return refused(refusal);
    }
    let cabs = cabs_served(film_file, desk);
    desk.day.now += 1;
    let answer = Answer::Played(films, cabs);
    with_lines(answer, &lines)
}

// Plays the day's current round, with a report of `room` places: a line for each film open, the films open and the cabs served,
// and the day one round later. Refused, the desk is as it was.
pub fn play(file: &[u8], desk: &mut Desk, room: u64) -> Played
    ensures plays { Plays file.now desk.old room result.answer (told_lines result.answer result.lines) desk.new }
    ensures lines { result.lines ≡ padded (told_lines result.answer result.lines) }
{
    // No sheet is looked at, so none can be too short.
    let t = desk.day.rounds as usize;
    match read_standing(file, desk, t, t, t) {
        Ok(film_file) => play_standing(&film_file, desk, room),
        Err(refusal) => refused(refusal),
    }
}
