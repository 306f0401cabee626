// What is said of a message: its rows or its refusal.
#![tactic(auto)]

mod outcome;
mod row;

pub use outcome::{Accepted, Refused};
