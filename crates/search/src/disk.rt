// Rounds that the disk can take.
ghost use Rattle.std.specs.Prelude.{◌≡◌, ◌+◌, ◌≤◌, ◌<◌};
ghost use Rattle.load.specs.Stream.{length_of};
ghost use Rattle.search.specs.Fit.{disk_free};
ghost use Rattle.search.specs.Search.{LastFails};

use crate::query::Query;

impl Query<'_> {
    ghost use Rattle.search.specs.Seen.{seen};

    // Whether the disk can read the new stream too in round t.
    #[tactic(auto, unfolding(crate::specs::Fit::disk_fits))]
    fn disk_free(&self, t: usize) -> bool
        requires { t < self.now.last + length_of self.now.stream }
        ensures { result ≡ disk_free (seen self.now) t }
    {
        self.reserves[t] + self.stream.reserve + loss::loss(self.opens[t] + 1) <= self.disk
    }

    // The last of the rounds a to e - 1 in which it cannot.
    pub fn last_over_disk(&self, a: usize, e: usize) -> Option<usize>
        requires { e ≤ self.now.last + length_of self.now.stream }
        ensures { LastFails (disk_free (seen self.now)) a e result }
    {
        for t in (a..e).rev() {
            if !self.disk_free(t) {
                return Some(t);
            }
        }
        None
    }
}
