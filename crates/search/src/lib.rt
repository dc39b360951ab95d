// The first start of a booking's window that fits.
#![tactic(auto)]

mod cabs;
mod disk;
mod memory;
mod query;
mod window;

ghost use Rattle.std.specs.Prelude.{◌≡◌};
ghost use Rattle.retrieval.specs.Stored.{InRange};
ghost use Rattle.model.specs.Fit.{first_of};
ghost use Rattle.load.specs.Stream.{profile_of};
ghost use Rattle.search.specs.Fit.{query_of, fits_at, answer_of, Window};

use crate::query::Query;
use films::film::Sizes;
use limits::bounds::{MAX_PREFETCH, MAX_ROUNDS};
use load::stream::Stream;
use model::Day;
use retrieval::Schedule;

// rounds that a stream is open, at most
const MAX_LENGTH: usize = MAX_PREFETCH as usize + MAX_ROUNDS;

// The first start from first to last at which the stream y, whatever its own start, fits beside the streams of xs, where opens,
// reserves and helds are the day sheet of those.
pub fn first_start(
    file: &[u8],
    xs: &[Stream],
    y: Stream,
    day: Day,
    opens: &[u64],
    reserves: &[u64],
    helds: &[u64],
    first: u64,
    last: u64,
) -> Option<u64>
    requires in_range { InRange file.now y.at y.rounds y.prefetch y.reserve }
    requires window { Window (query_of y (profile_of file.now y) xs.now opens.now reserves.now helds.now day.disk day.memory) last }
    ensures { result ≡ answer_of (first_of (fits_at (query_of y (profile_of file.now y) xs.now opens.now reserves.now helds.now day.disk day.memory)) first last) }
{
    // not by y.schedule, which asks that the film has a round
    let schedule = Schedule {
        sizes: Sizes {
            file,
            at: y.at,
            rounds: y.rounds,
        },
        prefetch: y.prefetch,
        reserve: y.reserve,
    };
    let length = schedule.rounds();
    let mut profile = [0; MAX_LENGTH];
    schedule.add_held(&mut profile, 0, length, 0);
    let query = Query {
        stream: y,
        profile: &profile[..length],
        standing: xs,
        opens,
        reserves,
        helds,
        disk: day.disk,
        memory: day.memory,
        last: last as usize,
    };
    query.first_fit(first as usize)
}
