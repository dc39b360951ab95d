// Rounds that memory can take.
ghost use Rattle.std.specs.Prelude.{◌≡◌, ◌≤◌, ◌<◌, false, IfSome};
ghost use Rattle.load.specs.Stream.{length_of};
ghost use Rattle.search.specs.Fit.{memory_free};
ghost use Rattle.search.specs.Search.{FirstFails};

use crate::query::Query;

impl Query<'_> {
    ghost use Rattle.search.specs.Seen.{seen};

    // Whether memory takes what the new stream, from s on, holds in round j of its own.
    #[tactic(auto, unfolding(crate::specs::Fit::memory_fits))]
    fn memory_free(&self, s: usize, j: usize) -> bool
        requires within { s ≤ self.now.last }
        requires open_then { j < length_of self.now.stream }
        ensures { result ≡ memory_free (seen self.now) s j }
    {
        self.helds[s + j] + self.profile[j] <= self.memory
    }

    // The first round of the new stream's own in which memory cannot take it from s on. A loop, since `find` takes half as long again,
    // where most of the search is spent.
    pub fn first_over_memory(&self, s: usize) -> Option<usize>
        requires { s ≤ self.now.last }
        ensures { FirstFails (memory_free (seen self.now) s) 0 (length_of self.now.stream) result }
    {
        for j in 0..self.length() {
            if !self.memory_free(s, j) {
                return Some(j);
            }
        }
        None
    }

    // The rounds near and near - 1, tried before all others: one in which memory cannot take the new stream from s on. Where the
    // start before was refused in round near of the stream, the one has the same bytes of the stream, and the other is the same
    // round of the day.
    pub fn near_over_memory(&self, s: usize, near: usize) -> Option<usize>
        requires { s ≤ self.now.last }
        ensures { IfSome result (λ j. (j < length_of self.now.stream) × (memory_free (seen self.now) s j ≡ false)) }
    {
        if self.length() <= near {
            return None;
        }
        if !self.memory_free(s, near) {
            return Some(near);
        }
        if 0 < near && !self.memory_free(s, near - 1) {
            return Some(near - 1);
        }
        None
    }
}
