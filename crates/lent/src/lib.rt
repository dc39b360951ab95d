// Bookings as a lent list of records, the film reader as a struct that holds the file's bytes, and the functions that C and Rust call,
// which crate `lent_c` exports. C lends each of the sheet's lists by itself, so these functions take them so.
#![tactic(auto)]

pub mod desk;
pub mod exports;
pub mod film_reader;
pub mod records;
