// The sums of one round.
ghost use Rattle.std.specs.Prelude.{◌≡◌, List, ℕ, ◌+◌, ◌≤◌, ◌<◌, length};
ghost use Rattle.limits.specs.Bounds.{max_bookings};
ghost use Rattle.load.specs.declared.stream.Stream.{Stream};
ghost use Rattle.rounds.specs.Rows.{head_words, BlockOf};
ghost use Rattle.rounds.specs.Sums.{head_at, open_head, busy_head, with_one, sums_in, RoomFor, IsBlock};

use crate::block::{Block, HEAD_WORDS};

// The words of a row before those of the rounds: rounds, and bytes per round, and a bit per cab.
#[derive(Clone, Copy, PartialEq, Eq, Debug)]
struct Head {
    start: u64,
    shows: u64,
    end: u64,
    reserve: u64,
    cabs: u64,
}

impl Head {
    // The head of the row that stands from place k on.
    fn at(words: &[u64], k: usize) -> Head
        requires { k + head_words ≤ length words.now }
        ensures { result ≡ head_at words.now k }
    {
        Head {
            start: words[k],
            shows: words[k + 1],
            end: words[k + 2],
            reserve: words[k + 3],
            cabs: words[k + 4],
        }
    }

    // Whether the booking is open in round t.
    #[tactic(auto, unfolding(crate::specs::Sums::open_head))]
    fn open_in(self, t: u64) -> bool
        ensures { result ≡ open_head t self }
    {
        self.start <= t && t < self.end
    }

    // The cabs that an open booking keeps busy in round t.
    #[tactic(auto, unfolding(crate::specs::Sums::busy_head))]
    fn busy(self, t: u64) -> u64
        ensures { result ≡ busy_head t self }
    {
        if t < self.shows { 0 } else { self.cabs }
    }
}

// Of the bookings open in a round: how many, their reserves and what they hold, in bytes, the cabs busy, and those of the cabs that
// show two films.
#[derive(Clone, Copy, PartialEq, Eq, Debug, Default)]
pub struct Sums {
    pub films: u64,
    pub reserves: u64,
    pub held: u64,
    pub taken: u64,
    pub twice: u64,
}

impl Sums {
    // The sums of round t with one booking more, which holds `held` bytes.
    #[tactic(auto, unfolding(crate::specs::Sums::with_one))]
    fn with_one(self, head: Head, t: u64, held: u64) -> Sums
        requires { RoomFor self head held }
        ensures { result ≡ with_one t self head held }
    {
        if !head.open_in(t) {
            return self;
        }
        let cabs = head.busy(t);
        Sums {
            films: self.films + 1,
            reserves: self.reserves + head.reserve,
            held: self.held + held,
            taken: self.taken | cabs,
            twice: self.twice | (self.taken & cabs),
        }
    }
}

// The sums of round k of the block, counted from its first. A row is read by its place: the words after the last row are those of an
// earlier block.
pub fn round_sums(words: &[u64], b: Block, k: usize) -> Sums
    requires { IsBlock b words.now × (k < b.rounds) }
    ensures { ((f : List ℕ) (ys : List Stream) → BlockOf f ys b words.now → result ≡ sums_in f (b.from + k) ys) × (result.films ≤ max_bookings) }
{
    let size = HEAD_WORDS + b.rounds;
    let t = (b.from + k) as u64;
    let mut sums = Sums::default();
    for i in 0..b.bookings {
        let at = size * i;
        sums = sums.with_one(Head::at(words, at), t, words[at + (HEAD_WORDS + k)]);
    }
    sums
}
