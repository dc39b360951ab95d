// A booking taken out of the desk's list.
ghost use Rattle.std.specs.Prelude.{◌≡◌, ◌≤◌, IsTrue, if◌then◌else◌, take};
ghost use Rattle.limits.specs.Bounds.{max_bookings};
ghost use Rattle.model.specs.Questions.{has_name};
ghost use Rattle.model.specs.Calls.{without};
ghost use Rattle.dropping.specs.Removal.{left};

use model::{Booking, Desk};

// Takes the booking of this name out: the records after it close the gap, and the place freed is zeroed. Says whether there was
// one; where there is none, the desk stays.
pub fn remove(desk: &mut Desk, name: u32) -> bool
    requires { desk.old.day.count ≤ max_bookings }
    ensures found { result ≡ has_name name (take desk.old.day.count desk.old.rows) }
    ensures leaves { desk.new ≡ (if result then left name desk.old else desk.old) }
    ensures standing { IsTrue result → take desk.new.day.count desk.new.rows ≡ without name (take desk.old.day.count desk.old.rows) }
{
    let count = desk.day.count as usize;
    let standing = &desk.rows[..count];
    let Some(i) = standing.iter().position(|row| row.name == name) else {
        return false;
    };
    desk.rows.copy_within(i + 1..count, i);
    desk.rows[count - 1] = Booking::default();
    desk.day.count -= 1;
    true
}
