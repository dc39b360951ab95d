// A film's sizes, where they stand in the film file.
ghost use Rattle.std.specs.Prelude.{◌≡◌, ◌+◌, ◌*◌, ◌<◌, ◌≤◌, get_or};
ghost use Rattle.limits.specs.Bounds.{max_size};
ghost use Rattle.films.specs.Sizes.{size, sizes, Stored};

use crate::words::size_at;

// The bytes of a film file, the offset of the film's first size and the film's rounds.
#[derive(Clone, Copy)]
pub struct Sizes<'a> {
    pub file: &'a [u8],
    pub at: usize,
    pub rounds: usize,
    ghost stored: { Stored file.now at rounds },
}

impl Sizes<'_> {
    // The size of round i.
    pub fn get(&self, i: usize) -> u64
        requires { i < self.now.rounds }
        ensures at { result ≡ size self.now.file.now (self.now.at + 4 * i) }
        ensures round { result ≡ get_or (sizes self.now.file.now self.now.at self.now.rounds) i 0 }
        ensures small { result ≤ max_size }
    {
        size_at(self.file, self.at + 4 * i)
    }
}
