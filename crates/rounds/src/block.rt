// A block of coming rounds: a row of words for each booking open in one of them. The rows stand one after the other in a list of
// fixed length, since how many rounds a block has depends on how many bookings are open in them.
ghost use Rattle.std.specs.Prelude.{◌≡◌, ◌+◌, ◌*◌, ◌≤◌, ◌<◌, length, drop, count_by};
ghost use Rattle.limits.specs.Bounds.{max_bookings, max_day};
ghost use Rattle.load.specs.Basic.{Bounded};
ghost use Rattle.load.specs.Stream.{carry_from};
ghost use Rattle.rounds.specs.Table.{streams_in};
ghost use Rattle.rounds.specs.Rows.{open_between, active, head_words, head_of, helds_of, row_of, block_words, RowsOf, Bookings, Looked};

use crate::carry::Playing;
use crate::marks::Marked;
use load::stream::Stream;

// words of a row before those of the rounds: start, first showing round, end, reserve, cabs
pub const HEAD_WORDS: usize = 5;

// words of all rows
pub const BLOCK_WORDS: usize = 3000;

// rounds of a block, at most
pub const BLOCK_ROUNDS: usize = 1000;

// The first round of a block, how many rounds and how many rows it has.
#[derive(Clone, Copy, PartialEq, Eq, Debug)]
pub struct Block {
    pub from: usize,
    pub rounds: usize,
    pub bookings: usize,
}

// Whether the booking is open in one of the rounds from `from` to `to` - 1.
#[tactic(auto, unfolding(crate::specs::Rows::open_between))]
fn open_between(x: Stream, from: usize, to: usize) -> bool
    ensures { result ≡ open_between from to x }
{
    x.start < to && !x.ends_by(from as u64)
}

// How many are.
fn count_open(bookings: &[Marked], from: usize, to: usize) -> usize
    ensures { result ≡ count_by (open_between from to) (streams_in bookings.now) }
{
    bookings
        .iter()
        .map(|m| m.stream)
        .filter(|x| open_between(*x, from, to))
        .count()
}

// Writes the words of a row that stand before those of the rounds.
fn write_head(part: &mut [u64], x: Stream)
    requires { Bounded x × (head_words ≤ length part.old) }
    ensures { part.new ≡ head_of x (drop head_words part.old) }
{
    let end = x.end() as u64;
    let shows = end - x.rounds as u64;
    part[..HEAD_WORDS].copy_from_slice(&[x.start as u64, shows, end, x.reserve, x.cabs]);
}

// Writes what the booking holds in the rounds from `from` on, one for each word, from the last to the first. `carry` is that of its
// rounds after them.
fn write_helds(x: &Playing<'_>, from: usize, part: &mut [u64], carry: u64)
    requires { (from + length part.old ≤ max_day) × (carry ≡ carry_from x.now.file.now (from + length part.old) x.now.stream) }
    ensures { part.new ≡ helds_of x.now.file.now from (length part.old) x.now.stream }
{
    let mut left = carry;
    for k in (0..part.len()).rev() {
        let turn = x.held_in(from + k, left);
        part[k] = turn.held;
        left = turn.carry;
    }
}

// Writes the row of one booking, for n rounds from `from` on.
fn write_row(x: &Playing<'_>, from: usize, n: usize, part: &mut [u64], carry: u64)
    requires { (from + n ≤ max_day) × (carry ≡ carry_from x.now.file.now (from + n) x.now.stream) × (length part.old ≡ head_words + n) }
    ensures { part.new ≡ row_of x.now.file.now from n x.now.stream }
{
    write_head(part, x.stream);
    write_helds(x, from, &mut part[HEAD_WORDS..], carry);
}

// Writes the rows of the bookings that are open in one of the n rounds from `from` on. Gives how many they are.
fn write_rows(file: &[u8], bookings: &[Marked], from: usize, n: usize, words: &mut [u64]) -> usize
    requires { Bookings file.now bookings.now × (from + n ≤ max_day) × ((head_words + n) * length (active from (from + n) (streams_in bookings.now)) ≤ length words.old) }
    ensures { RowsOf file.now (active from (from + n) (streams_in bookings.now)) from n result words.new }
{
    let size = HEAD_WORDS + n;
    // The rows are counted beside, since only a booking open in these rounds has one.
    let mut rows = 0;
    for m in bookings {
        if open_between(m.stream, from, from + n) {
            let x = Playing {
                file,
                stream: m.stream,
            };
            let carry = m.carry_at(&x, from + n);
            let at = size * rows;
            write_row(&x, from, n, &mut words[at..at + size], carry);
            rows += 1;
        }
    }
    rows
}

// How many rounds a block has whose rows are those of n bookings.
fn block_rounds(n: usize) -> usize
    requires { n ≤ max_bookings }
    ensures { (0 < result) × ((head_words + result) * n ≤ block_words) }
{
    if n <= BLOCK_WORDS / (HEAD_WORDS + BLOCK_ROUNDS) {
        return BLOCK_ROUNDS;
    }
    BLOCK_WORDS / n - HEAD_WORDS
}

// Works out ahead what the bookings hold in the rounds from `from` on: in as many as the words take, up to `to` - 1.
// Word HEAD_WORDS + k of row i is what the i-th of those open in the block holds in round `from` + k.
pub fn look(file: &[u8], bookings: &[Marked], from: usize, to: usize, words: &mut [u64]) -> Block
    requires { Bookings file.now bookings.now × (from < to) × (to ≤ max_day) × (block_words ≤ length words.old) }
    ensures { Looked file.now (streams_in bookings.now) from to words.new result }
{
    let last = to.min(from + BLOCK_ROUNDS);
    let most = count_open(bookings, from, last);
    let rounds = block_rounds(most).min(last - from);
    let bookings = write_rows(file, bookings, from, rounds, words);
    Block {
        from,
        rounds,
        bookings,
    }
}
