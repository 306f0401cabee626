// The console: takes commands from an input, and says on an output what each came to.
#![tactic(auto)]

mod input;
mod session;
mod stop;

pub use session::{End, run, serve};
