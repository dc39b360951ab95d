// What a replay answers, as plain numbers.
ghost use Rattle.std.specs.Prelude.{◌≡◌};
ghost use Rattle.replay.specs.Contract.{refusal_in, entries_in, words_in};
ghost use Rattle.interface.specs.ReplayCall.{told};

use model::Day;

// What a replay gives: the opening's refusal, or 0; how many entries were carried out; how many words of the log were written; and
// the day after them.
#[repr(C)]
#[derive(Clone, Copy, PartialEq, Eq, Debug)]
pub struct Replayed {
    pub refusal: u32,
    pub entries: u64,
    pub words: u64,
    pub day: Day,
}

impl Replayed {
    pub fn new(answer: Result<replay::Replayed, u32>, day: Day) -> Replayed
        ensures { result ≡ told (refusal_in answer) (entries_in answer) (words_in answer) day }
    {
        match answer {
            Ok(done) => Replayed {
                refusal: 0,
                entries: done.entries,
                words: done.words,
                day,
            },
            Err(refusal) => Replayed {
                refusal,
                entries: 0,
                words: 0,
                day,
            },
        }
    }
}
