// Reading a whole message at a level: its rows, or its first refusal.
#![tactic(auto)]

mod names;
mod parsed;
mod reading;
mod sorted;
mod walk;

pub use reading::read;
