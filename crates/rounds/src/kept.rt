// Whether every round keeps the limits, and no cab shows two films in a round.
ghost use Rattle.std.specs.Prelude.{◌≡◌, List, ℕ, ◌≤◌};
ghost use Rattle.limits.specs.Bounds.{max_bookings};
ghost use Rattle.laws.specs.Tests.{all};
ghost use Rattle.loss.specs.Loss.{loss_at};
ghost use Rattle.rounds.specs.Table.{streams_in};
ghost use Rattle.rounds.specs.Rows.{Bookings};
ghost use Rattle.rounds.specs.Sums.{IsBlock};
ghost use Rattle.rounds.specs.Kept.{feasible, streams_kept, sums_kept, loss_in, Losses, BlockKept, Testable};

use crate::block::{BLOCK_WORDS, Block, look};
use crate::marks::{Marked, mark_streams};
use crate::sums::{Sums, round_sums};
use load::stream::Stream;
use model::Day;

impl Sums {
    // Whether a round with these sums keeps the day's limits and shows no cab two films.
    #[tactic(auto, unfolding(crate::specs::Kept::sums_kept))]
    fn kept(self, losses: &[u64], day: Day) -> bool
        requires { (self.films ≤ max_bookings) × Losses losses.now }
        ensures { result ≡ sums_kept (loss_in losses.now) day.disk day.memory self }
    {
        self.reserves as u128 + losses[self.films as usize] as u128 <= day.disk as u128
            && self.held <= day.memory
            && self.twice == 0
    }
}

// Whether the block's rounds are kept.
fn block_kept(words: &[u64], b: Block, losses: &[u64], day: Day) -> bool
    requires { IsBlock b words.now × Losses losses.now }
    ensures { BlockKept b words.now losses.now day.disk day.memory result }
{
    for k in 0..b.rounds {
        if !round_sums(words, b, k).kept(losses, day) {
            return false;
        }
    }
    true
}

// Whether each booking has a schedule: its first mark says that nothing is left to be read before its start.
fn all_feasible(bookings: &[Marked]) -> bool
    ensures { (f : List ℕ) → Bookings f bookings.now → result ≡ all (feasible f) (streams_in bookings.now) }
{
    bookings.iter().all(|m| m.carries[0] == 0)
}

// Whether each booking has a schedule, and in every round of the day the reserves of the open bookings and the loss of their number
// are at most the disk limit, what they hold is at most the memory limit, and no cab shows two films.
pub fn rounds_kept(file: &[u8], xs: &[Stream], day: Day) -> bool
    requires { Testable file.now xs.now day.rounds }
    ensures { result ≡ streams_kept file.now loss_at day.rounds day.disk day.memory xs.now }
{
    let bookings = mark_streams(file, xs);
    if !all_feasible(&bookings) {
        return false;
    }
    let losses = loss::table();
    let day_rounds = day.rounds as usize;
    let mut words = [0; BLOCK_WORDS];
    let mut t = 0;
    // Block by block: how many rounds a block has is known once it is looked up.
    while t < day_rounds {
        let b = look(file, &bookings, t, day_rounds, &mut words);
        if !block_kept(&words, b, &losses, day) {
            return false;
        }
        t += b.rounds;
    }
    true
}
