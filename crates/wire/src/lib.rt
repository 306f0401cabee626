// The vocabulary of all the others: kinds and rows of a message, its tree, levels, and refusals.
#![tactic(auto)]

pub mod kind;
pub mod level;
pub mod refusal;
pub mod row;
pub mod tree;
