// One character of a text: a byte that stands for itself, the end of a line, or a reference.
ghost use Rattle.std.specs.Prelude.{◌≡◌, ◌≤◌, length, IfSome, if◌then◌else◌, nat_eq, slice_index};
ghost use Rattle.characters.specs.Decoding.{reference_at, is_plain, unit_at};

use crate::reference::character_of;
use texts::bytes::Class;

// The bytes that stand for themselves, whatever follows.
pub struct Plain;

impl Class for Plain {
    ghost member = { is_plain };

    fn has(byte: u8) -> bool {
        byte != b'&' && byte != b'\r'
    }
}

// The character of a reference, given what stands behind its `&`, and how many bytes it takes there.
fn reference(text: &[u8]) -> Option<(u8, usize)>
    ensures value { result ≡ reference_at text.now }
    ensures within { IfSome result (λ u. u.1 ≤ length text.now) }
{
    let end = text.iter().position(|b| *b == b';')?;
    let c = character_of(&text[..end])?;
    Some((c, end + 1))
}

// How many bytes behind a carriage return end the same line.
fn line_feed(text: &[u8]) -> usize
    ensures value { result ≡ (if nat_eq (slice_index text.now 0) 10 then 1 else 0) }
    ensures within { result ≤ length text.now }
{
    match text {
        [b'\n', ..] => 1,
        _ => 0,
    }
}

// The character that stands at a byte, given the bytes behind it, and how many of those belong to it.
#[tactic(auto, unfolding(crate::specs::Decoding::unit_at))]
pub(crate) fn unit(first: u8, rest: &[u8]) -> Option<(u8, usize)>
    ensures value { result ≡ unit_at first rest.now }
    ensures within { IfSome result (λ u. u.1 ≤ length rest.now) }
{
    match first {
        b'&' => reference(rest),
        b'\r' => Some((b'\n', line_feed(rest))),
        _ => Some((first, 0)),
    }
}
