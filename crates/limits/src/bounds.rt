// Bounds, each with its unit. specs/Bounds.antt has the same numbers.

// ---- The film file

// films in a file, at most
pub const MAX_FILMS: usize = 64;

// rounds of a film, at most
pub const MAX_ROUNDS: usize = 4096;

// bytes that a film sends in one round, at most
pub const MAX_SIZE: u64 = 16777215;

// ---- A film's schedule

// pre-fetch rounds, at most
pub const MAX_PREFETCH: u64 = 256;

// reserve in bytes per round, at most
pub const MAX_RESERVE: u64 = 16777215;

// ---- A day

// rounds of a day, at most
pub const MAX_DAY: u64 = 86400;

// disk limit in bytes per round, at most
pub const MAX_DISK: u64 = 4294967295;

// memory limit in bytes, at most
pub const MAX_MEMORY: u64 = 1099511627776;

// bookings of a day, at most
pub const MAX_BOOKINGS: usize = 256;

// ---- The program

// bytes of the program's film file, at most
pub const HALL_FILE: usize = 65536;

// rounds of the program's day sheet
pub const HALL_ROUNDS: usize = 1024;

// places of the program's list of bookings
pub const HALL_PLACES: usize = 64;

// bytes of a command line, at most
pub const MAX_LINE: usize = 200;

// digits of a numeral, at most
pub const MAX_DIGITS: usize = 20;
