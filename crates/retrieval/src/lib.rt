// A film's just-in-time schedule, where its sizes stand in the file: whether there is one, its peak, what it holds, one round.
// Each is one pass backward over the sizes, with no buffer.
#![tactic(auto)]

ghost use Rattle.std.specs.Prelude.{◌≡◌, ◌+◌, ◌-◌, ◌^◌, ◌≤◌, ◌<◌, max, get_or, drop};
ghost use Rattle.std.proofs.Math.Seq.{slice};
ghost use Rattle.limits.specs.Bounds.{max_size};
ghost use Rattle.retrieval.specs.Schedule.{peak};
ghost use Rattle.retrieval.specs.JustInTime.{just_in_time, exists_by};
ghost use Rattle.retrieval.specs.Carry.{carry, profile};
ghost use Rattle.retrieval.specs.Stored.{sends_in, InRange, max_held};
ghost use Rattle.retrieval.specs.Sheet.{plus, Adds};
ghost use Rattle.retrieval.specs.Round.{round_of};

use films::film::Sizes;

// What one round of a film reads, sends and holds, in bytes.
#[derive(Clone, Copy, PartialEq, Eq, Debug, Default)]
pub struct Round {
    pub read: u64,
    pub send: u64,
    pub held: u64,
}

// half of the numbers that 64 bits take
const HALF: u64 = 9223372036854775808;

// The larger of two totals, by arithmetic alone: d is their difference above 2^63, so that d / 2^63 is 1 exactly if b is at most a, and
// d % 2^63 is then what a is more.
pub fn larger(a: u64, b: u64) -> u64
    requires { (a < 2 ^ 63) × (b < 2 ^ 63) }
    ensures { result ≡ max a b }
{
    let d = a + HALF - b;
    b + (d % HALF) * (d / HALF)
}

// What a round that holds so much leaves to be read before it, at b bytes in the round: the rule's step from a round to the one before.
pub fn carry_before(held: u64, b: u64) -> u64
    requires { (held < 2 ^ 63) × (b < 2 ^ 63) }
    ensures { result ≡ held - b }
{
    larger(held, b) - b
}

// A film's just-in-time schedule: its sizes, its pre-fetch rounds and its reserve in bytes per round. Rounds are counted from
// its start.
#[derive(Clone, Copy)]
pub struct Schedule<'a> {
    pub sizes: Sizes<'a>,
    pub prefetch: usize,
    pub reserve: u64,
    ghost in_range: { InRange sizes.file.now sizes.at sizes.rounds prefetch reserve },
}

impl Schedule<'_> {
    // How many rounds the film occupies.
    pub fn rounds(&self) -> usize
        ensures { result ≡ self.now.prefetch + self.now.sizes.rounds }
    {
        self.prefetch + self.sizes.rounds
    }

    // What the film sends in round t.
    pub fn send_at(&self, t: usize) -> u64
        requires { t < self.now.prefetch + self.now.sizes.rounds }
        ensures sent { result ≡ get_or (sends_in self.now.sizes self.now.prefetch) t 0 }
        ensures small { result ≤ max_size }
    {
        if t < self.prefetch {
            0
        } else {
            self.sizes.get(t - self.prefetch)
        }
    }

    // The carry of the film's rounds from t on: what they leave to be read before round t.
    fn carry_from(&self, t: usize) -> u64
        requires { t ≤ self.now.prefetch + self.now.sizes.rounds }
        ensures carried { result ≡ carry self.now.reserve (drop t (sends_in self.now.sizes self.now.prefetch)) }
        ensures small { result ≤ max_held }
    {
        let mut left = 0;
        for k in (t..self.rounds()).rev() {
            left = carry_before(self.send_at(k) + left, self.reserve);
        }
        left
    }

    // Does a schedule exist? It does exactly if nothing is left to be read before round 0.
    pub fn exists(&self) -> bool
        ensures { result ≡ exists_by self.now.reserve (sends_in self.now.sizes self.now.prefetch) }
    {
        self.carry_from(0) == 0
    }

    // The peak: the most that the film holds in a round, in bytes. The pre-fetch rounds hold no more than the round after them.
    pub fn peak(&self) -> u64
        ensures { result ≡ peak (sends_in self.now.sizes self.now.prefetch) (just_in_time self.now.reserve 0 (sends_in self.now.sizes self.now.prefetch)) }
    {
        let mut left = 0;
        let mut most = 0;
        for i in (0..self.sizes.rounds).rev() {
            let held = self.sizes.get(i) + left;
            most = larger(most, held);
            left = carry_before(held, self.reserve);
        }
        most
    }

    // Adds what the film holds in its rounds a to e - 1 to the first places of a lent list, where c is the carry of its rounds from
    // e on. Gives the carry of its rounds from a on, so that a film can be added window by window, the latest first; with a 0,
    // e all its rounds and c 0 it is added whole.
    pub fn add_held(&self, part: &mut [u64], a: usize, e: usize, c: u64) -> u64
        requires { Adds part.old (sends_in self.now.sizes self.now.prefetch) self.now.reserve a e c }
        ensures added { part.new ≡ plus part.old (slice a e (profile self.now.reserve (sends_in self.now.sizes self.now.prefetch))) }
        ensures carried { result ≡ carry self.now.reserve (drop a (sends_in self.now.sizes self.now.prefetch)) }
    {
        let mut left = c;
        for k in (a..e).rev() {
            let held = self.send_at(k) + left;
            part[k - a] += held;
            left = carry_before(held, self.reserve);
        }
        left
    }

    // What the film reads, sends and holds in round t.
    pub fn round_at(&self, t: usize) -> Round
        requires { t < self.now.prefetch + self.now.sizes.rounds }
        ensures { result ≡ round_of self.now.reserve (sends_in self.now.sizes self.now.prefetch) t }
    {
        let send = self.send_at(t);
        let held = send + self.carry_from(t + 1);
        Round {
            read: self.reserve.min(held),
            send,
            held,
        }
    }
}
