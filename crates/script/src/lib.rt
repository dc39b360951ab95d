// What the test programs share: the operands of a script, the film file that its operations write, lines of numbers, and
// the checksum that stands for values too many to print.
#![tactic(auto)]

pub mod buffer;
pub mod checksum;
pub mod film;
pub mod input;
pub mod line;
pub mod operands;
