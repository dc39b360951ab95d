// Replay of a day's journal.
#![tactic(auto)]

pub mod file;
pub mod journal;
pub mod log;
pub mod step;

ghost use Rattle.std.specs.Prelude.{◌≡◌, ◌<◌, List, Ok, length};
ghost use Rattle.std.specs.Result.{IfErr};
ghost use Rattle.model.specs.Code.{state_in, SameLists};
ghost use Rattle.model.specs.Fit.{Fits};
ghost use Rattle.model.specs.declared.Booking.{Booking};
ghost use Rattle.opening.specs.Contract.{asked};
ghost use Rattle.questions.specs.Given.{setting_at};
ghost use Rattle.replay.specs.Journal.{entries};
ghost use Rattle.replay.specs.Contract.{lent_to, result_of, desk_in, Replays};
ghost use Rattle.replay.specs.DeskRun.{desk_run, run_result};
ghost use Rattle.replay.specs.Pictured.{Pictured};

use file::LentFile;
use journal::{ENTRY_WORDS, entry_at};
use log::Log;
use model::{Answer, Day, Desk, Sheet};
use opening::open;
use step::step;

// What a replay gives: how many entries were done, and how many words of the log were written.
#[derive(Clone, Copy, PartialEq, Eq, Debug)]
pub struct Replayed {
    pub entries: u64,
    pub words: u64,
}

// Carries the journal's entries out in order, from an opened day on, until one's words do not fit in what is left of the log.
fn run(
    file: &LentFile<'_>,
    desk: &mut Desk,
    sheet: &mut Sheet<'_>,
    journal: &[u64],
    words: &mut [u64],
) -> Replayed
    requires { Pictured (setting_at file.now.bytes.now desk.old.day) (state_in desk.old sheet.old) }
    ensures replays { Replays (run_result (setting_at file.now.bytes.now desk.old.day) (desk_run (setting_at file.now.bytes.now desk.old.day) (state_in desk.old sheet.old) (length words.old) (entries journal.now))) words.old (Ok result) desk.new sheet.new words.new }
    ensures places { desk.new.places ≡ desk.old.places }
    ensures same_sheet { SameLists sheet.old sheet.new }
{
    let count = journal.len() / ENTRY_WORDS;
    let mut log = Log { words, at: 0 };
    for i in 0..count {
        if !step(file, desk, sheet, entry_at(journal, i), &mut log) {
            return Replayed {
                entries: i as u64,
                words: log.at as u64,
            };
        }
    }
    Replayed {
        entries: count as u64,
        words: log.at as u64,
    }
}

// Opens a day on the desk and carries the journal's entries out in order. The log gets each entry's answer and, after a played
// round, its report's lines; the replay ends before the first entry whose words do not fit in what is left of the log. An opening
// that is refused gives its number, as the model's answer has it, and nothing lent changes.
pub fn replay(
    file: &[u8],
    desk: &mut Desk,
    sheet: &mut Sheet<'_>,
    rounds: u64,
    disk: u64,
    memory: u64,
    journal: &[u64],
    log: &mut [u64],
) -> Result<Replayed, u32>
    ensures replays { (fits : (bs : List Booking) → Dec (Fits (setting_at file.now (asked rounds disk memory)) bs)) → Replays (result_of (setting_at file.now (asked rounds disk memory)) (lent_to desk.old.rows desk.old.places sheet.old.opens.now sheet.old.reserves.now sheet.old.helds.now) fits journal.now (length log.old)) log.old result (desk_in result desk.new) sheet.new log.new }
    ensures numbered { IfErr result (λ number. 0 < number) }
    ensures refused { IfErr result (λ number. desk.new ≡ desk.old) }
    ensures places { desk.new.places ≡ desk.old.places }
    ensures same_sheet { SameLists sheet.old sheet.new }
{
    // A proof knows how long an array behind a reference is once a slice of it is made.
    let _rows = &desk.rows[..];
    let mut day = Day::default();
    if let Answer::Refused(number) = open(&mut day, sheet, rounds, disk, memory) {
        return Err(number);
    }
    desk.day = day;
    let file = LentFile::read(file);
    Ok(run(&file, desk, sheet, journal, log))
}
