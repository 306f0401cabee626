// Doubles, held as a whole number and a scale: how many of its digits are the fraction's.
ghost use Rattle.std.specs.Prelude.{◌≡◌, ℕ, ◌+◌, ◌/◌, ◌^◌, ◌<◌, ◌≤◌, true, false, length, drop, ℤ, Some, MatchResult, nat_le, unsigned_abs};
ghost use Rattle.std.specs.Result.{result_ok};
ghost use Rattle.texts.specs.Digits.{worth, worth_after};
ghost use Rattle.texts.specs.Pages.{Writes};
ghost use Rattle.numbers.specs.Signs.{is_negative};
ghost use Rattle.numbers.specs.Doubles.{is_zero, AllDigits, is_fraction, is_plain_double, whole as wholeDigits, fraction as fractionDigits, counted, counted_fraction, double_of, double_spelling, is_double};

use crate::signs::{Signed, split_sign};
use texts::Malformed;
use texts::bytes::{Class, Digit, leading_of, trailing_of, unblanked};
use texts::digits::fill_digits;

// The digit zero, which does not count at either end.
pub struct Zero;

impl Class for Zero {
    ghost member = { is_zero };

    fn has(byte: u8) -> bool {
        byte == b'0'
    }
}

// The most digits that count.
const MOST: usize = 18;

// What digits are worth behind `n`, which has at most `done` digits itself.
fn worth_after(n: u64, done: usize, digits: &[u8]) -> u64
    requires { (n < 10 ^ done) × ((AllDigits digits.now) × (done + length digits.now ≤ 18)) }
    ensures value { result ≡ worth_after n digits.now }
    ensures bound { result < 10 ^ (done + length digits.now) }
{
    let mut sum = n;
    for digit in digits {
        sum = sum * 10 + u64::from(*digit - b'0');
    }
    sum
}

// The digits behind the point, none where there is no point.
fn split_fraction(rest: &[u8]) -> Result<&[u8], Malformed>
    ensures { MatchResult result (λ f. (is_fraction rest.now ≡ true) × (f.now ≡ drop 1 rest.now) × AllDigits f.now) (λ _. is_fraction rest.now ≡ false) }
{
    match rest {
        [] => Ok(rest),
        [b'.', digits @ ..] if !digits.is_empty() && leading_of::<Digit>(digits) == digits.len() =>
            Ok(digits),
        _ => Err(Malformed),
    }
}

// The number and the scale of the digits that count.
fn count_digits(whole: &[u8], fraction: &[u8]) -> Result<(u64, u8), Malformed>
    requires { (AllDigits whole.now) × (AllDigits fraction.now) }
    ensures { MatchResult result (λ p. (nat_le (length (counted whole.now fraction.now)) 18 ≡ true) × (p.0 ≡ worth (counted whole.now fraction.now)) × (p.1 ≡ length (counted_fraction fraction.now)) × (p.0 < 10 ^ 18)) (λ _. nat_le (length (counted whole.now fraction.now)) 18 ≡ false) }
{
    let whole = &whole[leading_of::<Zero>(whole)..];
    let fraction = &fraction[..fraction.len() - trailing_of::<Zero>(fraction)];
    if whole.len() + fraction.len() > MOST {
        return Err(Malformed);
    }
    let n = worth_after(0, 0, whole);
    let n = worth_after(n, whole.len(), fraction);
    Ok((n, fraction.len() as u8))
}

// The number and the scale of a double without its sign.
fn read_unsigned(text: &[u8]) -> Result<(u64, u8), Malformed>
    ensures { MatchResult result (λ p. (is_plain_double text.now ≡ true) × (p.0 ≡ worth (counted (wholeDigits text.now) (fractionDigits text.now))) × (p.1 ≡ length (counted_fraction (fractionDigits text.now))) × (p.0 < 10 ^ 18)) (λ _. is_plain_double text.now ≡ false) }
{
    let (whole, rest) = text.split_at(leading_of::<Digit>(text));
    if whole.is_empty() {
        return Err(Malformed);
    }
    count_digits(whole, split_fraction(rest)?)
}

// The number and the scale that a text spells; both are such as a double can have.
pub fn read_double(text: &[u8]) -> Result<(i64, u8), Malformed>
    ensures value { result_ok result ≡ double_of text.now }
    ensures double { (number : ℤ) (scale : ℕ) → double_of text.now ≡ Some (number, scale) → is_double number scale ≡ true }
{
    let (minus, digits) = split_sign(unblanked(text));
    let (magnitude, scale) = read_unsigned(digits)?;
    Ok((Signed { minus, magnitude }.number(), scale))
}

// A number without its last `scale` digits.
fn whole_part(number: i64, scale: u8) -> Signed
    ensures { result ≡ record { minus = is_negative number; magnitude = unsigned_abs number / 10 ^ scale } }
{
    let Signed { minus, magnitude } = Signed::from(number);
    let magnitude = 10_u64
        .checked_pow(u32::from(scale))
        .map_or(0, |power| magnitude / power);
    Signed { minus, magnitude }
}

// How long the spelling of a number with a scale is. The format tells the two as two numbers, and rows
// hold them apart.
pub fn double_len(number: i64, scale: u8) -> usize
    ensures { result ≡ length (double_spelling number scale) }
{
    whole_part(number, scale).len() + 1 + usize::from(scale.max(1))
}

// Writes the spelling of a number with a scale.
pub fn write_double(number: i64, scale: u8, page: &mut [u8]) -> Option<usize>
    ensures page { Writes (double_spelling number scale) page.old page.new result }
    ensures reads_back { is_double number scale ≡ true → double_of (double_spelling number scale) ≡ Some (number, scale) }
{
    let whole = whole_part(number, scale);
    let point = whole.len();
    let len = point + 1 + usize::from(scale.max(1));
    if len > page.len() {
        return None;
    }
    whole.put(&mut page[..point]);
    page[point] = b'.';
    let fraction = if scale == 0 { 0 } else { number.unsigned_abs() };
    fill_digits(fraction, &mut page[point + 1..len]);
    Some(len)
}
