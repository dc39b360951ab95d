// The day sheet, summed round by round: films open, sum of reserves and sum of bytes held.
ghost use Rattle.std.specs.Prelude.{◌+◌};
ghost use Rattle.model.specs.Code.{SameLists};
ghost use Rattle.rounds.specs.Sums.{IsBlock};
ghost use Rattle.rounds.specs.Sheet.{Places, BlockSummed, SheetOf, Summable};

use crate::block::{BLOCK_WORDS, Block, look};
use crate::marks::mark_streams;
use crate::sums::round_sums;
use load::stream::Stream;
use model::Sheet;

// Writes the sums of the block's rounds, one round after the other.
fn sum_block(words: &[u64], b: Block, sheet: &mut Sheet<'_>)
    requires { IsBlock b words.now × Places (b.from + b.rounds) sheet.old.opens.now sheet.old.reserves.now sheet.old.helds.now }
    ensures summed { BlockSummed b words.now sheet.old.opens.now sheet.old.reserves.now sheet.old.helds.now sheet.new.opens.now sheet.new.reserves.now sheet.new.helds.now }
    ensures lists { SameLists sheet.old sheet.new }
{
    for k in 0..b.rounds {
        let sums = round_sums(words, b, k);
        let t = b.from + k;
        sheet.opens[t] = sums.films;
        sheet.reserves[t] = sums.reserves;
        sheet.helds[t] = sums.held;
    }
}

// Sums the rounds from `from` to `to` - 1 of the bookings. Each place is written once, a round's before those of the next; the places
// of other rounds are left as they are.
pub fn sum_sheet(file: &[u8], xs: &[Stream], from: usize, to: usize, sheet: &mut Sheet<'_>)
    requires { Summable file.now xs.now from to sheet.old.opens.now sheet.old.reserves.now sheet.old.helds.now }
    ensures summed { SheetOf file.now xs.now from to sheet.old.opens.now sheet.old.reserves.now sheet.old.helds.now sheet.new.opens.now sheet.new.reserves.now sheet.new.helds.now }
    ensures lists { SameLists sheet.old sheet.new }
{
    let bookings = mark_streams(file, xs);
    let mut words = [0; BLOCK_WORDS];
    let mut t = from;
    // Block by block: how many rounds a block has is known once it is looked up.
    while t < to {
        let b = look(file, &bookings, t, to, &mut words);
        sum_block(&words, b, sheet);
        t += b.rounds;
    }
}
