// Refusals, each with the question that it says no to and that question's number. specs/Refusals.antt has the same numbers.
ghost use Rattle.std.specs.Prelude.{◌≡◌};
ghost use Rattle.limits.specs.Refusals.{number_of};

#[derive(Clone, Copy, PartialEq, Eq, Debug)]
pub enum Refusal {
    // Are the bytes of this part of the film file there?
    Truncated = 1,
    // Is F 1 to 64?
    FilmCount = 2,
    // Does the entry's number exceed the one before?
    FilmOrder = 3,
    // Is n 1 to 4,096?
    RoundCount = 4,
    // Is the second count the sum of the n?
    SizeCount = 5,
    // Is every size at most 16,777,215?
    SizeBound = 6,
    // Does the file end?
    Trailing = 7,
    // Is the film in the file?
    NoFilm = 8,
    // Is p at most 256?
    Prefetch = 9,
    // Is b at most 16,777,215?
    Reserve = 10,
    // Does the lent list take what is to be written?
    NoRoom = 11,
    // Does a schedule exist?
    NoSchedule = 12,
    // Is the cap at least the film's largest size?
    Cap = 13,
    // Is T in range, and `now` at most T?
    DayRounds = 14,
    // Is D at most 4,294,967,295 and M at most 1,099,511,627,776?
    DayLimits = 15,
    // Is the list sound?
    Unsound = 16,
    // Is there a place below both 256 and the list's length?
    ListFull = 17,
    // Is the name new?
    NameTaken = 18,
    // Is the name in the list?
    NoName = 19,
    // Is some cab named?
    NoCab = 20,
    // Is now ≤ first ≤ last and last+p+n ≤ T?
    Window = 21,
    // Does a start in the window fit?
    NoStart = 22,
    // Is `now` below T?
    DayOver = 23,
    // Is the line a command?
    Command = 24,
    // Is the program's film file at most 65,536 bytes?
    FileSize = 25,
}

impl Refusal {
    pub fn number(self) -> u32
        ensures { result ≡ number_of self }
    {
        self as u32
    }
}
