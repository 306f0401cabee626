// Method names. A name is its own spelling, so `pages::write_text` writes it.
ghost use Rattle.std.specs.Prelude.{◌≡◌, true, false, MatchResult};
ghost use Rattle.texts.specs.Methods.{is_method_byte, is_method_name};

use crate::Malformed;
use crate::bytes::{Class, all_of};

// The bytes that a method name may hold.
pub struct MethodByte;

impl Class for MethodByte {
    ghost member = { is_method_byte };

    fn has(byte: u8) -> bool {
        byte.is_ascii_alphanumeric() || matches!(byte, b'_' | b'.' | b':' | b'/')
    }
}

pub const LONGEST: usize = 64;

// The method name that a text is.
pub fn read_method_name(text: &[u8]) -> Result<&[u8], Malformed>
    ensures { MatchResult result (λ name. (is_method_name text.now ≡ true) × (name.now ≡ text.now)) (λ _. is_method_name text.now ≡ false) }
{
    if text.is_empty() || text.len() > LONGEST || !all_of::<MethodByte>(text) {
        return Err(Malformed);
    }
    Ok(text)
}
