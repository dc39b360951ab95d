// The starts of a window, tried upward. A start that does not fit rules out others, so most are never looked at.
ghost use Rattle.std.specs.Prelude.{◌≡◌, ◌≤◌, true, MatchOption};
ghost use Rattle.model.specs.Fit.{first_of};
ghost use Rattle.search.specs.Fit.{fits_at, answer_of};
ghost use Rattle.search.specs.Search.{Clear, Skips};

use crate::query::Query;
use std::cmp::max;

// A start to try, the round up to which its rounds are known to be free for the disk, and the round of the stream's own in
// which memory refused a start before.
#[derive(Clone, Copy)]
pub struct Candidate {
    pub start: usize,
    pub clear: usize,
    pub near: usize,
}

impl Query<'_> {
    ghost use Rattle.search.specs.Seen.{seen};

    // The next start to try where the candidate's does not fit; None where it fits. The cheapest test comes first; the disk's
    // rounds are looked at from the far end, so that the last one that it cannot take gives the next start, and none is looked
    // at twice.
    fn next_to_try(&self, c: Candidate) -> Option<Candidate>
        requires within { c.start ≤ self.now.last }
        requires known { Clear (seen self.now) c.start c.clear }
        ensures { MatchOption result (fits_at (seen self.now) c.start ≡ true) (λ next. Skips (seen self.now) c.start next.start next.clear) }
    {
        let start = c.start;
        if let Some(near) = self.near_over_memory(start, c.near) {
            return Some(Candidate {
                start: start + 1,
                near,
                ..c
            });
        }
        let clear = start + self.length();
        if let Some(t) = self.last_over_disk(max(start, c.clear), clear) {
            return Some(Candidate {
                start: t + 1,
                clear,
                ..c
            });
        }
        if let Some(next) = self.after_clash(start) {
            return Some(Candidate {
                start: next,
                clear,
                ..c
            });
        }
        if let Some(near) = self.first_over_memory(start) {
            return Some(Candidate {
                start: start + 1,
                clear,
                near,
            });
        }
        None
    }

    // The first start from first on at which the new stream fits.
    pub fn first_fit(&self, first: usize) -> Option<u64>
        ensures { result ≡ answer_of (first_of (fits_at (seen self.now)) first self.now.last) }
    {
        let mut c = Candidate {
            start: first,
            clear: first,
            near: 0,
        };
        // no range or chain is plainer: each step gives the next start, often many rounds on
        while c.start <= self.last {
            match self.next_to_try(c) {
                Some(next) => c = next,
                None => return Some(c.start as u64),
            }
        }
        None
    }
}
