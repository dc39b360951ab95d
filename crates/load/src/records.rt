// Question 16, booking by booking.
ghost use Rattle.std.specs.Prelude.{◌≡◌};
ghost use Rattle.laws.specs.Tests.{all};
ghost use Rattle.load.specs.Basic.{basic_of};

use crate::stream::Stream;
use limits::bounds::{MAX_PREFETCH, MAX_RESERVE};

// Whether the booking passes 8, 9, 10 and 20 and s+p+n ≤ T.
#[tactic(auto, unfolding(crate::specs::Basic::basic_of))]
fn basic(x: Stream, day_rounds: u64) -> bool
    ensures { result ≡ basic_of day_rounds x }
{
    1 <= x.rounds
        && x.prefetch as u64 <= MAX_PREFETCH
        && x.reserve <= MAX_RESERVE
        && x.cabs != 0
        && x.ends_by(day_rounds)
}

// Whether each does.
pub fn all_basic(xs: &[Stream], day_rounds: u64) -> bool
    ensures { result ≡ all (basic_of day_rounds) xs.now }
{
    xs.iter().all(|x| basic(*x, day_rounds))
}
