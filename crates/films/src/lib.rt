// The film file: its verdict, the catalogue of its films, and lookup.
#![tactic(auto)]

pub mod catalogue;
mod entries;
pub mod file;
pub mod film;
pub mod lookup;
mod sizes;
pub mod words;
