// One entry carried out on the day, and logged.
ghost use Rattle.std.specs.Prelude.{◌≡◌, ◌+◌, ◌≤◌, length};
ghost use Rattle.laws.specs.Questions.{refusal};
ghost use Rattle.model.specs.Code.{state_in, SameLists};
ghost use Rattle.model.specs.Claim.{InBetween};
ghost use Rattle.questions.specs.Given.{setting_at};
ghost use Rattle.questions.specs.Numbers.{standing_asks};
ghost use Rattle.replay.specs.DeskRun.{Steps, StepsPlay};

use crate::file::LentFile;
use crate::journal::Entry;
use crate::log::{ANSWER_WORDS, LINE_WORDS, Log};
use booking::book_standing;
use dropping::drop_standing;
use films::file::FilmFile;
use limits::refusals::Refusal;
use model::{Answer, Desk, Sheet};
use playing::play_standing;

// PLAY, where the log has three places left and the questions before 23 have passed. Its lines are known to fit only once they are
// made; where they do not, the day is put back. It is not inlined, since its lines would stand on the stack of a replay's bookings too.
#[inline(never)]
fn step_play(films: &FilmFile<'_>, desk: &mut Desk, room: u64, log: &mut Log<'_>) -> bool
    requires place { log.old.at + 3 ≤ length log.old.words.now }
    requires stands { refusal (standing_asks films.now.bytes.now desk.old desk.old.day.rounds desk.old.day.rounds desk.old.day.rounds) ≡ 0 }
    ensures steps { StepsPlay (setting_at films.now.bytes.now desk.old.day) desk.old room log.old result desk.new log.new }
    ensures places { desk.new.places ≡ desk.old.places }
    ensures same_log { log.new.words.ghost_name ≡ log.old.words.ghost_name }
{
    let day = desk.day;
    let played = play_standing(films, desk, room);
    let lines = played.lines();
    if log.room() < ANSWER_WORDS + LINE_WORDS * lines.len() {
        desk.day = day;
        return false;
    }
    log.append_answer(played.answer);
    log.append_lines(lines);
    true
}

// Carries an entry out and logs it; where its words do not fit, it says false, and nothing is done. 14, 15, 11 and 16 would pass.
pub fn step(
    file: &LentFile<'_>,
    desk: &mut Desk,
    sheet: &mut Sheet<'_>,
    entry: Option<Entry>,
    log: &mut Log<'_>,
) -> bool
    requires place { log.old.at ≤ length log.old.words.now }
    requires between { InBetween (setting_at file.now.bytes.now desk.old.day) (state_in desk.old sheet.old) }
    ensures steps { Steps (setting_at file.now.bytes.now desk.old.day) (state_in desk.old sheet.old) entry log.old result desk.new sheet.new log.new }
    ensures places { desk.new.places ≡ desk.old.places }
    ensures same_sheet { SameLists sheet.old sheet.new }
    ensures same_log { log.new.words.ghost_name ≡ log.old.words.ghost_name }
{
    if log.room() < ANSWER_WORDS {
        return false;
    }
    let Some(call) = entry else {
        log.append_answer(Answer::Refused(Refusal::Command.number()));
        return true;
    };
    let films = match &file.films {
        Ok(films) => films,
        Err(refusal) => {
            log.append_answer(Answer::Refused(refusal.number()));
            return true;
        }
    };
    match call {
        Entry::Book(request) => {
            let answer = book_standing(films, desk, sheet, request);
            log.append_answer(answer);
            true
        }
        Entry::Drop(name) => {
            let answer = drop_standing(films, desk, sheet, name);
            log.append_answer(answer);
            true
        }
        Entry::Play(room) => step_play(films, desk, room, log),
    }
}
