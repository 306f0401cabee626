// Bytes in lower-case hexadecimal.
#![tactic(auto)]

ghost use Rattle.std.specs.Prelude.{◌≡◌, ℕ, ◌<◌, List, [], ◌∷◌, IsOk, Some};
ghost use Rattle.std.specs.Fmt.{WritesOnOk, IsPlainFormatter, HasWritten};
ghost use Rattle.std.specs.Iterator.{IsFinite, Drains};
ghost use Rattle.hex_texts.specs.Hex.{hex_digit, hex_byte, hex_text};

use std::fmt;
use texts::streams::Stream;

// The digit worth `value`, as text: a character is turned into text each time that it is written.
fn digit(value: u8) -> &'static str
    requires { value < 16 }
    ensures { result.now ≡ hex_digit value ∷ [] }
{
    match value {
        0 => "0",
        1 => "1",
        2 => "2",
        3 => "3",
        4 => "4",
        5 => "5",
        6 => "6",
        7 => "7",
        8 => "8",
        9 => "9",
        10 => "a",
        11 => "b",
        12 => "c",
        13 => "d",
        14 => "e",
        _ => "f",
    }
}

// Writes the two digits of a byte.
pub fn write_byte<W: fmt::Write>(byte: u8, f: &mut fmt::Formatter<W>) -> fmt::Result
    ensures { WritesOnOk W.write_str_gives f.old result (hex_byte byte) f.new }
{
    f.write_str(digit(byte / 16))?;
    f.write_str(digit(byte % 16))
}

// Writes the digits of bytes as an iterator gives them, `-` where it gives none.
pub fn write_bytes<S: Stream, W: fmt::Write>(bytes: S, f: &mut fmt::Formatter<W>) -> fmt::Result
    ensures { WritesOnOk W.write_str_gives f.old result (hex_text (S.Stream.left bytes)) f.new }
{
    let mut bytes = bytes;
    let Some(first) = bytes.next() else {
        return f.write_str("-");
    };
    write_byte(first, f)?;
    for byte in bytes {
        write_byte(byte, f)?;
    }
    Ok(())
}

// Bytes that are shown in hexadecimal, `-` for none.
#[derive(Clone, Copy)]
pub struct Hex<'a>(pub &'a [u8]);

impl fmt::Display for Hex<'_> {
    ghost output = { λ hex. Some (hex_text hex.0.now) };

    fn fmt<W: fmt::Write>(&self, f: &mut fmt::Formatter<W>) -> fmt::Result {
        write_bytes(self.0.iter().copied(), f)
    }
}
