// The character data of strings and member names: read with its references, and written in canonical form.
#![tactic(auto)]

mod check;
mod class;
mod compare;
mod cursor;
mod reference;
mod unit;
mod write;

pub use check::{BadCharacters, check_characters, count_characters};
pub use class::Character;
pub use compare::{characters_are, same_characters};
pub use cursor::Characters;
pub use write::{characters_len, escaped, write_characters};
