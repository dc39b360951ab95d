// The papers' numbers: bounds with their unit, and refusals with their question. specs/ has the same numbers under the
// same names in its own spelling (MAX_FILMS is max_films).
#![tactic(auto)]

pub mod bounds;
pub mod refusals;
