// What every call of a day asks before its own questions: of the day, its sheet and the list of bookings.
#![tactic(auto)]

pub mod asked;
mod soundness;
pub mod standing;
