// The bytes that are characters.
ghost use Rattle.characters.specs.References.{is_character};

use texts::bytes::Class;

// Tab, line feed, carriage return and 32 to 126.
pub struct Character;

impl Class for Character {
    ghost member = { is_character };

    fn has(byte: u8) -> bool {
        matches!(byte, b'\t' | b'\n' | b'\r' | b' '..=b'~')
    }
}
