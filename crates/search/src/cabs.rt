// Streams that share a cab.
ghost use Rattle.std.specs.Prelude.{◌≡◌, ◌≤◌};
ghost use Rattle.limits.specs.Bounds.{max_day};
ghost use Rattle.load.specs.Stream.{end_of, clashes};
ghost use Rattle.search.specs.Fit.{start_at};
ghost use Rattle.search.specs.Search.{after_clash};

use crate::query::Query;
use load::stream::Stream;
use std::cmp::{max, min};

impl Query<'_> {
    ghost use Rattle.search.specs.Seen.{seen};

    // Whether the new stream clashes from s on with x: they have a cab in common and show in a common round.
    #[tactic(auto, unfolding(load::specs::Stream::clashes))]
    fn clashes(&self, x: Stream, s: usize) -> bool
        requires within { s ≤ self.now.last }
        requires ends { end_of x ≤ max_day }
        ensures { result ≡ clashes x (start_at s self.now.stream) }
    {
        let x_shows = x.start + x.prefetch;
        let shows = s + self.stream.prefetch;
        x.cabs & self.stream.cabs != 0
            && max(x_shows, shows) < min(x_shows + x.rounds, shows + self.stream.rounds)
    }

    // The first start at which the new stream shows only after a standing one has ended, the first that it clashes with from s
    // on; None where it clashes with none.
    pub fn after_clash(&self, s: usize) -> Option<usize>
        requires { s ≤ self.now.last }
        ensures { result ≡ after_clash (seen self.now) s }
    {
        let x = self.standing.iter().find(|x| self.clashes(**x, s))?;
        Some(x.start + x.prefetch + x.rounds - self.stream.prefetch)
    }
}
