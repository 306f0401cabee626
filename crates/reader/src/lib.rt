// Reading a message into rows, or telling the first refusal.
#![tactic(auto)]

mod fault;
mod frame;
mod machine;
mod read;
mod run;
mod runs;
mod stack;

pub use fault::fault_fits;
pub use read::read_rows;
