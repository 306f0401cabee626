// References: what the body of one, between `&` and `;`, names.
ghost use Rattle.std.specs.Prelude.{◌≡◌, ◌≤◌, true, false, length, MatchOption};
ghost use Rattle.characters.specs.References.{all_digits, named, numbered, numeral, referenced};
ghost use Rattle.std.specs.Str.Parse.{digits_value};

use crate::class::Character;
use texts::bytes::Class;

// The character that a name stands for.
fn character_named(name: &str) -> Option<u8>
    ensures { result ≡ named name.now }
{
    match name {
        "amp" => Some(b'&'),
        "lt" => Some(b'<'),
        "gt" => Some(b'>'),
        "apos" => Some(b'\''),
        "quot" => Some(b'"'),
        _ => None,
    }
}

// The same of a name that is still bytes.
#[tactic(auto, using(crate::proofs::Names::no_text))]
fn by_name(name: &[u8]) -> Option<u8>
    ensures { result ≡ named name.now }
{
    character_named(std::str::from_utf8(name).ok()?)
}

// What a few digits of a base are worth.
fn worth(digits: &[u8], radix: u32) -> Option<u32>
    requires { (2 ≤ radix) × ((radix ≤ 16) × (length digits.now ≤ 5)) }
    ensures { MatchOption result (all_digits radix digits.now ≡ false) (λ n. (all_digits radix digits.now ≡ true) × (n ≡ digits_value radix digits.now)) }
{
    let mut n = 0;
    for d in digits {
        n = n * radix + char::from(*d).to_digit(radix)?;
    }
    Some(n)
}

// The character whose number is written by one to `most` digits of a base.
#[tactic(auto, using(crate::proofs::Numerals::numeral_of), unfolding(crate::specs::References::numeral))]
fn by_number(digits: &[u8], radix: u32, most: usize) -> Option<u8>
    requires { (2 ≤ radix) × ((radix ≤ 16) × (most ≤ 5)) }
    ensures { result ≡ numeral radix most digits.now }
{
    if digits.is_empty() || digits.len() > most {
        return None;
    }
    let c = u8::try_from(worth(digits, radix)?).ok()?;
    Character::has(c).then_some(c)
}

// The character that a numbered reference names, given what stands behind its `#`.
#[tactic(auto, unfolding(crate::specs::References::numbered))]
fn by_digits(digits: &[u8]) -> Option<u8>
    ensures { result ≡ numbered digits.now }
{
    match digits {
        [b'x', digits @ ..] => by_number(digits, 16, 4),
        _ => by_number(digits, 10, 5),
    }
}

// The character that a reference names, given its body.
#[tactic(auto, unfolding(crate::specs::References::referenced))]
pub(crate) fn character_of(body: &[u8]) -> Option<u8>
    ensures { result ≡ referenced body.now }
{
    match body {
        [b'#', digits @ ..] => by_digits(digits),
        _ => by_name(body),
    }
}
