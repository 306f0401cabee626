// Bytes that lower-case hexadecimal stands for.
ghost use Rattle.std.specs.Prelude.{◌≡◌, ℕ, ◌<◌, MatchOption, ◌≢◌};
ghost use Rattle.hex_texts.specs.Hex.{hex_digit};

use crate::unread::Unread;
use std::alloc::Global;

// What a digit is worth; `to_digit` would take capitals too.
fn digit_value(byte: u8) -> Option<u8>
    ensures { MatchOption result ((v : ℕ) → v < 16 → byte ≢ hex_digit v) (λ v. (v < 16) × (byte ≡ hex_digit v)) }
{
    match byte {
        b'0'..=b'9' => Some(byte - b'0'),
        b'a'..=b'f' => Some(byte - b'a' + 10),
        _ => None,
    }
}

// The bytes that hexadecimal, or `-` for none, stands for.
pub(crate) fn decode(heap: Global, hex: &[u8]) -> Result<Vec<u8>, Unread> {
    let mut bytes = Vec::new(heap);
    if hex == b"-".as_slice() {
        return Ok(bytes);
    }
    if hex.is_empty() || hex.len() % 2 != 0 {
        return Err(Unread::BadLine);
    }
    for pair in hex.chunks_exact(2) {
        let high = digit_value(pair[0]).ok_or(Unread::BadLine)?;
        let low = digit_value(pair[1]).ok_or(Unread::BadLine)?;
        bytes.push(high * 16 + low)?;
    }
    Ok(bytes)
}
