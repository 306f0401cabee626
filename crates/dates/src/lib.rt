// Dates: a type that holds days of the calendar only, and their text.
#![tactic(auto)]

pub mod date;
pub mod text;
