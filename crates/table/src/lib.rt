// The table of the grammar: at each point of a message, which tags may come and what each does.
#![tactic(auto)]

pub mod mode;
pub mod moves;
