// Whether a text is character data, and how many characters it has.
ghost use Rattle.std.specs.Prelude.{◌≡◌};
ghost use Rattle.characters.specs.Checking.{counted, checked, Within};
ghost use Rattle.characters.specs.Rule.{Judges};

use crate::class::Character;
use crate::unit::{Plain, unit};
use texts::bytes::leading_of;

// Why a text is no character data.
#[derive(Clone, Copy, PartialEq, Eq, Debug)]
pub enum BadCharacters {
    // A byte that may not stand in a text.
    Byte,
    // The `&` at this offset begins no good reference.
    Reference(usize),
}

// How many characters a text has, or where its first bad reference stands.
pub fn count_characters(text: &[u8]) -> Result<usize, BadCharacters>
    ensures value { result ≡ counted text.now }
    ensures within { Within text.now result }
{
    let mut count = leading_of::<Plain>(text);
    let mut rest = &text[count..];
    while let Some((first, behind)) = rest.split_first() {
        let at = text.len() - rest.len();
        let (_, more) = unit(*first, behind).ok_or(BadCharacters::Reference(at))?;
        let next = &behind[more..];
        let plain = leading_of::<Plain>(next);
        count += 1 + plain;
        rest = &next[plain..];
    }
    Ok(count)
}

// How many characters a text has. A byte that may not stand in it is refused before any reference.
pub fn check_characters(text: &[u8]) -> Result<usize, BadCharacters>
    ensures verdict { result ≡ checked text.now }
    ensures rule { Judges text.now result }
{
    if leading_of::<Character>(text) < text.len() {
        return Err(BadCharacters::Byte);
    }
    count_characters(text)
}
