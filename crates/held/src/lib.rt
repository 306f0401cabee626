// Held messages: what their rows say, row by row and byte by byte.
#![tactic(auto)]

pub mod composed;
pub mod held;
pub mod makes;
pub mod message;
pub mod text;
