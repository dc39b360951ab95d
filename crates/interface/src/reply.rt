// What a call answers, as plain numbers.
ghost use Rattle.std.specs.Prelude.{◌≡◌};
ghost use Rattle.interface.specs.Reply.{reply_of};

use model::{Answer, Day};

// The refusal's number, or 0; a booking's start; the films open and the cabs served in a played round; and the day after the call.
// What the call does not give is 0.
#[repr(C)]
#[derive(Clone, Copy, PartialEq, Eq, Debug)]
pub struct Reply {
    pub refusal: u32,
    pub start: u64,
    pub films: u64,
    pub cabs: u64,
    pub day: Day,
}

impl Reply {
    pub fn new(answer: Answer, day: Day) -> Reply
        ensures { result ≡ reply_of answer day }
    {
        let reply = Reply {
            refusal: 0,
            start: 0,
            films: 0,
            cabs: 0,
            day,
        };
        match answer {
            Answer::Refused(refusal) => Reply { refusal, ..reply },
            Answer::Booked(start) => Reply { start, ..reply },
            Answer::Played(films, cabs) => Reply {
                films,
                cabs,
                ..reply
            },
            Answer::Opened | Answer::Dropped => reply,
        }
    }
}
