// What a booking holds in a round, and its carry: what its rounds from a round on leave to be read before them. Both are worked
// out from the later rounds to the earlier.
ghost use Rattle.std.specs.Prelude.{◌≡◌, ◌+◌, ◌≤◌};
ghost use Rattle.load.specs.Basic.{Playable};
ghost use Rattle.load.specs.Stream.{carry_from};
ghost use Rattle.rounds.specs.Carry.{Turned};

use load::stream::Stream;
use retrieval::carry_before;

// The bytes held in a round, and the carry of the rounds from it on.
#[derive(Clone, Copy, PartialEq, Eq, Debug)]
pub struct Held {
    pub held: u64,
    pub carry: u64,
}

// A booking that can be played: its stream, and the film file where its sizes stand.
#[derive(Clone, Copy)]
pub struct Playing<'a> {
    pub file: &'a [u8],
    pub stream: Stream,
    ghost playable: { Playable file.now stream },
}

impl Playing<'_> {
    // What the booking holds in round t, where `carry` is that of its rounds from t + 1 on.
    pub fn held_in(&self, t: usize, carry: u64) -> Held
        requires { carry ≡ carry_from self.now.file.now (t + 1) self.now.stream }
        ensures { Turned self.now.file.now self.now.stream t result }
    {
        let x = self.stream;
        if !x.open_in(t) {
            return Held { held: 0, carry };
        }
        let held = x.schedule(self.file).send_at(t - x.start) + carry;
        Held {
            held,
            carry: carry_before(held, x.reserve),
        }
    }

    // The carry of its rounds from `from` on, where `carry` is that of its rounds from `to` on. After the booking's end nothing is
    // carried.
    pub fn carry_back(&self, from: usize, to: usize, carry: u64) -> u64
        requires order { from ≤ to }
        requires carried { carry ≡ carry_from self.now.file.now to self.now.stream }
        ensures { result ≡ carry_from self.now.file.now from self.now.stream }
    {
        let mut left = carry;
        for t in (from..to.min(self.stream.end())).rev() {
            left = self.held_in(t, left).carry;
        }
        left
    }
}
