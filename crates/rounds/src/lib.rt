// The load of a day's rounds, round by round from any round on: films open, reserves, bytes held and the cabs busy. What the open
// bookings hold in a block of coming rounds is worked out ahead, in workspace; then each round is summed over the bookings open in it.
#![tactic(auto)]

pub mod block;
pub mod carry;
pub mod kept;
pub mod marks;
pub mod sheet;
pub mod sums;
