// What the readers and writers of all texts share: classes of bytes, blanks, digits, and the
// two smallest texts, method names and booleans.
#![tactic(auto)]

pub mod booleans;
pub mod bytes;
pub mod digits;
pub mod methods;
pub mod pages;
pub mod streams;

// The text breaks its form or its range.
#[derive(Clone, Copy, PartialEq, Eq, Debug)]
pub struct Malformed;
