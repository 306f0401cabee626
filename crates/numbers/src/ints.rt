// Ints, which the wire also spells i4.
ghost use Rattle.std.specs.Prelude.{◌≡◌, ℕ, true, false, ◌&&◌, length, Some, MatchResult, FitsSigned, nat_le};
ghost use Rattle.std.specs.Int.{w32};
ghost use Rattle.std.specs.Result.{result_ok};
ghost use Rattle.texts.specs.Digits.{worth};
ghost use Rattle.texts.specs.Pages.{Writes};
ghost use Rattle.numbers.specs.Ints.{is_numeral, int_of, int_spelling};

use crate::signs::{Signed, split_sign};
use texts::Malformed;
use texts::bytes::unblanked;

// The largest magnitude of an int, which only the smallest one has.
const LARGEST: u64 = 2_147_483_648;

// What one or more digits are worth, where that is at most `LARGEST`. Not by `parse`, which takes a `&str`: each byte
// would be looked at once more.
fn read_numeral(digits: &[u8]) -> Result<u64, Malformed>
    ensures { MatchResult result (λ n. (n ≡ worth digits.now) × ((is_numeral digits.now && nat_le (worth digits.now) LARGEST) ≡ true)) (λ _. (is_numeral digits.now && nat_le (worth digits.now) LARGEST) ≡ false) }
{
    if digits.is_empty() {
        return Err(Malformed);
    }
    let mut n = 0;
    for digit in digits {
        if !digit.is_ascii_digit() {
            return Err(Malformed);
        }
        n = n * 10 + u64::from(*digit - b'0');
        if n > LARGEST {
            return Err(Malformed);
        }
    }
    Ok(n)
}

// The int that a text spells.
pub fn read_int(text: &[u8]) -> Result<i32, Malformed>
    ensures { result_ok result ≡ int_of text.now }
{
    let (minus, digits) = split_sign(unblanked(text));
    let magnitude = read_numeral(digits)?;
    i32::try_from(Signed { minus, magnitude }.number()).map_err(|_| Malformed)
}

// How long the spelling of an int is.
pub fn int_len(number: i64) -> usize
    ensures { result ≡ length (int_spelling number) }
{
    Signed::from(number).len()
}

// Writes the spelling of an int.
pub fn write_int(number: i64, page: &mut [u8]) -> Option<usize>
    ensures page { Writes (int_spelling number) page.old page.new result }
    ensures reads_back { FitsSigned w32 number → int_of (int_spelling number) ≡ Some number }
{
    let number = Signed::from(number);
    let len = number.len();
    if len > page.len() {
        return None;
    }
    number.put(&mut page[..len]);
    Some(len)
}
