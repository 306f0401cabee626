// A line of input: a kind of text and the text's bytes.
ghost use Rattle.std.specs.Prelude.{◌≡◌, MatchResult, ◌≢◌};
ghost use Rattle.spell.specs.Lines.{word};
ghost use Rattle.spell.specs.declared.line.TextKind.{TextKind as SomeKind};

use crate::hex::decode;
use crate::reading::{Reading, read_text};
use crate::unread::Unread;
use std::alloc::Global;
use std::str::FromStr;

#[derive(Clone, Copy, Debug, PartialEq, Eq)]
pub enum TextKind {
    Method,
    Int,
    Boolean,
    Double,
    Date,
    Base64,
    String,
}

// The kind that a word names.
impl FromStr for TextKind {
    type Err = Unread;

    ghost from_str_gives = { λ name r. MatchResult r (λ k. name ≡ word k) (λ _. (k : SomeKind) → name ≢ word k) };

    fn from_str(name: &str) -> Result<TextKind, Unread> {
        match name {
            "method" => Ok(TextKind::Method),
            "int" => Ok(TextKind::Int),
            "boolean" => Ok(TextKind::Boolean),
            "double" => Ok(TextKind::Double),
            "date" => Ok(TextKind::Date),
            "base64" => Ok(TextKind::Base64),
            "string" => Ok(TextKind::String),
            _ => Err(Unread::BadLine),
        }
    }
}

// Reads the text that a line holds as the kind that it names.
pub(crate) fn read_line(heap: Global, line: &[u8]) -> Result<Reading, Unread> {
    let line = std::str::from_utf8(line).map_err(|_| Unread::BadLine)?;
    let (name, hex) = line.split_once(' ').ok_or(Unread::BadLine)?;
    let kind = name.parse()?;
    let text = decode(heap, hex.as_bytes())?;
    read_text(heap, kind, text.as_slice())
}
