// Opening a day, with its answer as plain numbers.
ghost use Rattle.interface.specs.DeskCalls.{OpensOver};

use crate::reply::Reply;
use model::{Day, Sheet};
use opening::open;

// Opens a day: refusals 14, 15, 11, which leave the day before. No record and no film file is looked at.
pub fn open_day(
    day: Day,
    rounds: u64,
    disk: u64,
    memory: u64,
    opens: &mut [u64],
    reserves: &mut [u64],
    helds: &mut [u64],
) -> Reply
    ensures { OpensOver day rounds disk memory opens.old reserves.old helds.old result opens.new reserves.new helds.new }
{
    let mut next = day;
    let mut sheet = Sheet {
        opens,
        reserves,
        helds,
    };
    let answer = open(&mut next, &mut sheet, rounds, disk, memory);
    Reply::new(answer, next)
}
