// The calls for a film's schedule and for its least reserve, over any film file and any request.
#![tactic(auto)]

pub mod reserves;
pub mod schedules;
