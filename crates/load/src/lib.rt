// The load of a day's rounds, and whether a list of bookings is sound.
#![tactic(auto)]

pub mod names;
pub mod records;
pub mod stream;
