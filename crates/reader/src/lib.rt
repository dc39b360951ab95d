// What is read of a film file: its entries one by one, the size of a round, and a film's summary.
#![tactic(auto)]

pub mod cursor;
pub mod rounds;
pub mod summary;
