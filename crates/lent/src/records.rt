// Lent lists, and the rows by value that a call works on.
ghost use Rattle.std.specs.Prelude.{◌≡◌, length};
ghost use Rattle.interface.specs.Records.{loaded, stored};

use limits::bounds::MAX_BOOKINGS;
use model::Booking;

// The first places of a lent list become the rows, as far as it has them, at most 256; the others stay.
pub fn store<T: Copy>(list: &mut [T], rows: &[T])
    ensures { list.new ≡ stored (length rows.now) rows.now list.old }
{
    let count = rows.len().min(MAX_BOOKINGS).min(list.len());
    list[..count].copy_from_slice(&rows[..count]);
}

// The first records of a lent list, at most 256, and blank ones up to 256.
pub fn load(list: &[Booking]) -> [Booking; MAX_BOOKINGS]
    ensures { result ≡ loaded list.now }
{
    let mut rows = [Booking::default(); MAX_BOOKINGS];
    store(&mut rows, list);
    rows
}
