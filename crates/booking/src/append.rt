// A request accepted at a start.
ghost use Rattle.std.specs.Prelude.{[], ◌∷◌, ◌++◌};
ghost use Rattle.load.specs.Stream.{end_of};
ghost use Rattle.model.specs.Code.{SameLists};
ghost use Rattle.rounds.specs.Sheet.{SheetOf};
ghost use Rattle.booking.specs.Append.{Appends};

use arrayvec::ArrayVec;
use limits::bounds::MAX_BOOKINGS;
use load::stream::Stream;
use model::Sheet;
use rounds::sheet::sum_sheet;

// Sums the rounds in which the stream x is open, with x behind the others.
pub fn sum_appended(
    file: &[u8],
    others: ArrayVec<Stream, MAX_BOOKINGS>,
    x: Stream,
    sheet: &mut Sheet<'_>,
)
    requires { Appends file.now others.items x sheet.old.opens.now sheet.old.reserves.now sheet.old.helds.now }
    ensures summed { SheetOf file.now (others.items ++ (x ∷ [])) x.start (end_of x) sheet.old.opens.now sheet.old.reserves.now sheet.old.helds.now sheet.new.opens.now sheet.new.reserves.now sheet.new.helds.now }
    ensures lists { SameLists sheet.old sheet.new }
{
    let mut xs = others;
    xs.push(x);
    sum_sheet(file, &xs, x.start, x.end(), sheet);
}
