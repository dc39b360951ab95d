// The calls for a schedule and for a least reserve: each answers plain numbers, 0 where there is none.
ghost use Rattle.std.specs.Prelude.{◌≡◌, length};
ghost use Rattle.films.specs.Layout.{sizes_of};
ghost use Rattle.films.specs.Decode.{films_of};
ghost use Rattle.retrieval.specs.Schedule.{sends};
ghost use Rattle.retrieval.specs.LeastReserve.{Least};
ghost use Rattle.limits.specs.Numbered.{numbered, answer_number};
ghost use Rattle.planning.specs.Answers.{scheduled, schedule_out, reserved};
ghost use Rattle.interface.specs.PlanCalls.{reserve_of};

use limits::refusals::Refusal;
use planning::reserves::least_reserve;
use planning::schedules::schedule;

// A least reserve: the refusal, or 0; its bytes.
#[repr(C)]
#[derive(Clone, Copy, PartialEq, Eq, Debug)]
pub struct Reserve {
    pub refusal: u32,
    pub bytes: u64,
}

impl From<Result<u64, Refusal>> for Reserve {
    ghost from_gives = { λ answer reserve. reserve ≡ reserve_of (numbered answer) };

    fn from(answer: Result<u64, Refusal>) -> Reserve {
        match answer {
            Ok(bytes) => Reserve { refusal: 0, bytes },
            Err(refusal) => Reserve {
                refusal: refusal.number(),
                bytes: 0,
            },
        }
    }
}

// Writes the p + n read totals of a film: 0, or a refusal, which writes nothing.
pub fn write_schedule(
    file: &[u8],
    film: u64,
    prefetch: u64,
    reserve: u64,
    totals: &mut [u64],
) -> u32
    ensures answer { result ≡ answer_number (scheduled file.now film prefetch reserve (length totals.old)) }
    ensures written { totals.new ≡ schedule_out file.now film prefetch reserve totals.old }
{
    schedule(file, film, prefetch, reserve, totals)
        .err()
        .map_or(0, Refusal::number)
}

// The least reserve of a film for a memory cap: the smallest with which some schedule holds at most the cap.
pub fn reserve_for(file: &[u8], film: u64, prefetch: u64, cap: u64) -> Reserve
    ensures answer { result ≡ reserve_of (reserved file.now film prefetch cap) }
    ensures least { result.refusal ≡ 0 → Least (sends prefetch (sizes_of (films_of file.now) film)) cap result.bytes }
{
    Reserve::from(least_reserve(file, film, prefetch, cap))
}
