// The texts of numbers: ints and doubles.
#![tactic(auto)]

pub mod doubles;
pub mod ints;
mod signs;
