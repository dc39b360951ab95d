// What a call asks before its own questions: the file's, 14, 15, 11 and 16.
ghost use Rattle.std.specs.Prelude.{◌≡◌, IfOk};
ghost use Rattle.laws.specs.Questions.{refusal};
ghost use Rattle.limits.specs.Refusals.{number};
ghost use Rattle.questions.specs.Numbers.{standing_asks};

use crate::asked::ask_day;
use crate::soundness::sound_holds;
use films::file::FilmFile;
use limits::refusals::Refusal;
use model::Desk;

// These questions of a call whose film file is accepted. The sheet's lists are opens, reserves and helds places long.
pub fn ask_standing(
    file: &FilmFile<'_>,
    desk: &Desk,
    opens: usize,
    reserves: usize,
    helds: usize,
) -> Result<(), Refusal>
    ensures { number result ≡ refusal (standing_asks file.now.bytes.now desk.now opens reserves helds) }
{
    ask_day(desk.day, opens, reserves, helds)?;
    if !sound_holds(file, desk) {
        return Err(Refusal::Unsound);
    }
    Ok(())
}

// The film file, where it is accepted and these questions pass.
pub fn read_standing<'a>(
    file: &'a [u8],
    desk: &Desk,
    opens: usize,
    reserves: usize,
    helds: usize,
) -> Result<FilmFile<'a>, Refusal>
    ensures number { number result ≡ refusal (standing_asks file.now desk.now opens reserves helds) }
    ensures bytes { IfOk result (λ film_file. film_file.bytes.now ≡ file.now) }
{
    let film_file = FilmFile::read(file)?;
    ask_standing(&film_file, desk, opens, reserves, helds)?;
    Ok(film_file)
}
