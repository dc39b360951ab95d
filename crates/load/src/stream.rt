// Bookings with their films' places in the file.
ghost use Rattle.std.specs.Prelude.{◌≡◌, ◌+◌, ◌≤◌, length, map};
ghost use Rattle.limits.specs.Bounds.{max_bookings};
ghost use Rattle.retrieval.specs.Stored.{sends_in};
ghost use Rattle.load.specs.Basic.{Bounded, Playable, ends_by};
ghost use Rattle.load.specs.Stream.{sends_of, length_of, end_of, open_in};
ghost use Rattle.load.specs.Streams.{stream_of};

use arrayvec::ArrayVec;
use films::file::Entry;
use films::film::Sizes;
use films::lookup::lookup;
use limits::bounds::MAX_BOOKINGS;
use model::Booking;
use retrieval::Schedule;

// A booking together with its film's place in the file.
#[derive(Clone, Copy, PartialEq, Eq, Debug, Default)]
pub struct Stream {
    // offset of the film's sizes in the file, in bytes
    pub at: usize,
    // the film's rounds n; 0 where the film is not in the file
    pub rounds: usize,
    pub start: usize,
    pub prefetch: usize,
    // bytes per round
    pub reserve: u64,
    // one bit per cab
    pub cabs: u64,
}

impl Stream {
    // s+p+n, for any numbers.
    fn wide_end(self) -> u128
        ensures { result ≡ end_of self }
    {
        self.start as u128 + self.prefetch as u128 + self.rounds as u128
    }

    // s+p+n: the round that is free of the stream.
    pub fn end(self) -> usize
        requires { Bounded self }
        ensures { result ≡ end_of self }
    {
        self.start + self.prefetch + self.rounds
    }

    // Whether s+p+n ≤ T, for any numbers.
    #[tactic(auto, unfolding(crate::specs::Basic::ends_by))]
    pub fn ends_by(self, day_rounds: u64) -> bool
        ensures { result ≡ ends_by day_rounds self }
    {
        self.wide_end() <= day_rounds as u128
    }

    // Whether the stream is open in round t: rounds s to s+p+n-1.
    #[tactic(auto, unfolding(crate::specs::Stream::open_in))]
    pub fn open_in(self, t: usize) -> bool
        ensures { result ≡ open_in t self }
    {
        self.start <= t && (t as u128) < self.wide_end()
    }

    // Its film's just-in-time schedule, rounds counted from its start.
    pub fn schedule(self, file: &[u8]) -> Schedule<'_>
        requires { Playable file.now self }
        ensures sends { sends_in result.sizes result.prefetch ≡ sends_of file.now self }
        ensures rounds { result.prefetch + result.sizes.rounds ≡ length_of self }
        ensures reserve { result.reserve ≡ self.reserve }
    {
        let sizes = Sizes {
            file,
            at: self.at,
            rounds: self.rounds,
        };
        Schedule {
            sizes,
            prefetch: self.prefetch,
            reserve: self.reserve,
        }
    }
}

// The booking with its film's place in the file; a film that is not there has none and no rounds.
#[tactic(auto, unfolding(crate::specs::Streams::stream_of))]
pub fn stream_of(films: &[Entry], b: Booking) -> Stream
    ensures { result ≡ stream_of films.now b }
{
    let place = lookup(films, b.film as u64).unwrap_or_default();
    Stream {
        at: place.at,
        rounds: place.rounds,
        start: b.start as usize,
        prefetch: b.prefetch as usize,
        reserve: b.reserve as u64,
        cabs: b.cabs,
    }
}

// Those of the bookings.
pub fn streams_of(films: &[Entry], rows: &[Booking]) -> ArrayVec<Stream, MAX_BOOKINGS>
    requires { length rows.now ≤ max_bookings }
    ensures { result.items ≡ map (stream_of films.now) rows.now }
{
    let mut xs = ArrayVec::new();
    for b in rows {
        xs.push(stream_of(films, *b));
    }
    xs
}
