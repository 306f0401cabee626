// Writing held messages in their canonical form.
#![tactic(auto)]

mod marks;
mod part;
mod pen;
mod put;
mod whole;

pub use whole::{canonical_len, write_canonical};
