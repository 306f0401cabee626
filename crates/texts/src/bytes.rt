// Classes of bytes, how far one reaches from either end of a text, and the blanks round it.
ghost use Rattle.std.specs.Prelude.{◌≡◌, ℕ, ◌-◌, ◌≤◌, Bool, length, ◌==◌};
ghost use Rattle.std.specs.List.{prefix_len, suffix_len};
ghost use Rattle.texts.specs.Bytes.{is_blank, unblanked as withoutBlanks};
ghost use Rattle.texts.specs.Digits.{is_digit};

// A class of bytes.
pub trait Class {
    ghost member: { ℕ → Bool };

    fn has(byte: u8) -> bool
        ensures { result ≡ member byte };
}

// Tab, line feed, carriage return and space.
pub struct Blank;

impl Class for Blank {
    ghost member = { is_blank };

    fn has(byte: u8) -> bool {
        matches!(byte, b' ' | b'\n' | b'\t' | b'\r')
    }
}

// The decimal digits.
pub struct Digit;

impl Class for Digit {
    ghost member = { is_digit };

    fn has(byte: u8) -> bool {
        byte.is_ascii_digit()
    }
}

// How many bytes at the front are of the class.
pub fn leading_of<C: Class>(bytes: &[u8]) -> usize
    ensures value { result ≡ prefix_len C.Class.member bytes.now }
    ensures bound { result ≤ length bytes.now }
{
    bytes.iter().take_while(|b| C::has(**b)).count()
}

// Whether all bytes are of the class. It looks at every byte, so that many are looked at together.
pub fn all_of<C: Class>(bytes: &[u8]) -> bool
    ensures { result ≡ (prefix_len C.Class.member bytes.now == length bytes.now) }
{
    bytes.iter().fold(true, |all, b| all & C::has(*b))
}

// How many bytes at the end are of the class.
pub fn trailing_of<C: Class>(bytes: &[u8]) -> usize
    ensures value { result ≡ suffix_len C.Class.member bytes.now }
    ensures bound { result ≤ length bytes.now }
{
    bytes.iter().rev().take_while(|b| C::has(**b)).count()
}

// The text without the blanks round it.
pub fn unblanked(text: &[u8]) -> &[u8]
    ensures { result.now ≡ withoutBlanks text.now }
{
    let rest = &text[leading_of::<Blank>(text)..];
    &rest[..rest.len() - trailing_of::<Blank>(rest)]
}
