// The carry of each booking at every 256th round of its film, worked out once. The carry at any other round is found from the next of
// them.
ghost use Rattle.std.specs.Prelude.{◌≡◌, ◌≤◌, length, map};
ghost use Rattle.limits.specs.Bounds.{max_bookings};
ghost use Rattle.load.specs.Basic.{Playable, EachOf};
ghost use Rattle.load.specs.Stream.{carry_from};
ghost use Rattle.rounds.specs.Table.{marked_of};

use crate::carry::Playing;
use arrayvec::ArrayVec;
use limits::bounds::MAX_BOOKINGS;
use load::stream::Stream;

// rounds from a mark to the next
pub const MARK_ROUNDS: usize = 256;

// marks of a booking
pub const MARKS: usize = 18;

// marks of all bookings of a day
pub const MARK_WORDS: usize = 4608;

// A booking with its marks: the carry of its rounds from every 256th on.
#[derive(Clone, Copy, PartialEq, Eq, Debug, Default)]
pub struct Marked {
    pub stream: Stream,
    pub carries: [u64; MARKS],
}

impl Marked {
    // The booking with its marks, worked out from the last to the first.
    fn new(x: &Playing<'_>) -> Marked
        ensures { result ≡ marked_of x.now.file.now x.now.stream }
    {
        let mut carries = [0; MARKS];
        let mut carry = 0;
        for j in (0..MARKS).rev() {
            let from = x.stream.start + MARK_ROUNDS * j;
            carry = x.carry_back(from, from + MARK_ROUNDS, carry);
            carries[j] = carry;
        }
        Marked {
            stream: x.stream,
            carries,
        }
    }

    // The carry of the booking's rounds from t on.
    pub fn carry_at(&self, x: &Playing<'_>, t: usize) -> u64
        requires marked { self.now ≡ marked_of x.now.file.now x.now.stream }
        requires begun { x.now.stream.start ≤ t }
        ensures { result ≡ carry_from x.now.file.now t x.now.stream }
    {
        let start = x.stream.start;
        if x.stream.end() <= t {
            return 0;
        }
        let j = (t - start).div_ceil(MARK_ROUNDS);
        x.carry_back(t, start + MARK_ROUNDS * j, self.carries[j])
    }
}

// The bookings with their marks.
pub fn mark_streams(file: &[u8], xs: &[Stream]) -> ArrayVec<Marked, MAX_BOOKINGS>
    requires { (length xs.now ≤ max_bookings) × EachOf (Playable file.now) xs.now }
    ensures { result.items ≡ map (marked_of file.now) xs.now }
{
    let mut marked = ArrayVec::new();
    for x in xs {
        let x = Playing { file, stream: *x };
        marked.push(Marked::new(&x));
    }
    marked
}
