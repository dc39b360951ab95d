// What a start of the window is tried against.
ghost use Rattle.std.specs.Prelude.{◌≡◌};
ghost use Rattle.load.specs.Stream.{length_of};
ghost use Rattle.search.specs.Fit.{query_of};
ghost use Rattle.search.specs.Search.{Walks};

use load::stream::Stream;

// The new stream, what its schedule holds in each of its rounds, the standing streams, the three lists of their sheet by round,
// the limits D and M, and the window's last start.
#[derive(Clone, Copy)]
pub struct Query<'a> {
    pub stream: Stream,
    pub profile: &'a [u64],
    pub standing: &'a [Stream],
    pub opens: &'a [u64],
    pub reserves: &'a [u64],
    pub helds: &'a [u64],
    pub disk: u64,
    pub memory: u64,
    pub last: usize,
    pub ghost walks: { Walks (query_of stream profile.now standing.now opens.now reserves.now helds.now disk memory) last },
}

impl Query<'_> {
    // How many rounds the new stream is open.
    pub fn length(&self) -> usize
        ensures { result ≡ length_of self.now.stream }
    {
        self.stream.prefetch + self.stream.rounds
    }
}
