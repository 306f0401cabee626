// Cutting a message into its parts: runs and tags, each with its place.
#![tactic(auto)]

pub mod declaration;
pub mod name;
pub mod reader;
pub mod tag;
