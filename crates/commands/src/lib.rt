// The lines that the console takes, and what each asks for.
#![tactic(auto)]

mod command;
mod numbers;

pub use command::{Command, UnknownCommand};
