// The interface for C and Rust: the structs that its functions give, each answer as plain numbers, and the calls that no list of records
// is lent to. The structs are laid out as in C, which has no other answer: a refusal is its number, and what an answer lacks is 0.
#![tactic(auto)]

pub mod desk_calls;
pub mod film_calls;
pub mod plan_calls;
pub mod replay_call;
pub mod reply;
