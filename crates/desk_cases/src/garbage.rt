// Garbage in the places of the sheet's lists and of the report.
ghost use Rattle.std.specs.Prelude.{◌<◌};

use crate::lent::Lent;
use limits::bounds::MAX_BOOKINGS;
use model::{Line, Sheet};

// places of the sheet's lists
pub const PLACES: usize = 10240;

// garbage is below this prime
const MODULUS: u64 = 65521;

// What a seed puts into place i of a list.
fn value(seed: u32, i: u32, list: u8) -> u16
    ensures { result < 65521 }
{
    ((u64::from(seed) + 31 * u64::from(i) + 7 * u64::from(list)) % MODULUS) as u16
}

// Fills a list of the sheet.
fn fill(places: &mut [u64], seed: u32, list: u8) {
    for (place, i) in places.iter_mut().zip(0..PLACES as u32) {
        *place = u64::from(value(seed, i, list));
    }
}

// A report line of garbage.
fn line(seed: u32, i: u32) -> Line {
    Line {
        name: u32::from(value(seed, i, 3)),
        read: u64::from(value(seed, i, 4)),
        send: u64::from(value(seed, i, 5)),
        held: u64::from(value(seed, i, 6)),
    }
}

// Fills the sheet's lists and the report.
pub fn spoil(seed: u32, sheet: &mut Sheet<'_>, lent: &mut Lent) {
    fill(&mut *sheet.opens, seed, 0);
    fill(&mut *sheet.reserves, seed, 1);
    fill(&mut *sheet.helds, seed, 2);
    for (place, i) in lent.report.iter_mut().zip(0..MAX_BOOKINGS as u32) {
        *place = line(seed, i);
    }
}
