// Names of bookings.
ghost use Rattle.std.specs.Prelude.{◌≡◌};
ghost use Rattle.model.specs.Questions.{has_name};
ghost use Rattle.model.specs.Soundness.{names_differ};

use model::Booking;

// Whether one of the bookings bears the name.
pub fn has_name(rows: &[Booking], name: u32) -> bool
    ensures { result ≡ has_name name rows.now }
{
    rows.iter().any(|b| b.name == name)
}

// Whether the bookings' names differ.
pub fn names_differ(rows: &[Booking]) -> bool
    ensures { result ≡ names_differ rows.now }
{
    let mut rest = rows;
    // Each booking against those after it, which a chain over the bookings does not have at hand.
    while let [b, after @ ..] = rest {
        if has_name(after, b.name) {
            return false;
        }
        rest = after;
    }
    true
}
