// The text of a date, read and written.
ghost use Rattle.std.specs.Prelude.{◌≡◌, ℕ, ◌+◌, ◌-◌, ◌*◌, ◌<◌, ◌&&◌, true, false, length, Some, MatchOption};
ghost use Rattle.std.specs.Option.{option_map};
ghost use Rattle.std.specs.Result.{result_ok};
ghost use Rattle.texts.specs.Bytes.{unblanked as withoutBlanks};
ghost use Rattle.texts.specs.Digits.{is_digit};
ghost use Rattle.texts.specs.Pages.{Writes};
ghost use Rattle.dates.specs.Moments.{Moment, plain_date, date_of, date_spelling};
ghost use Rattle.dates.specs.Dates.{moment_of};

use crate::date::Date;
use texts::Malformed;
use texts::bytes::unblanked;
use texts::pages::write_text;

// How long every date is.
const LEN: usize = 17;

// What two digits are worth.
fn two_digits(tens: u8, ones: u8) -> Option<u8>
    ensures { MatchOption result ((is_digit tens && is_digit ones) ≡ false) (λ n. ((is_digit tens && is_digit ones) ≡ true) × (n ≡ (tens - 48) * 10 + (ones - 48)) × (n < 100)) }
{
    if !tens.is_ascii_digit() || !ones.is_ascii_digit() {
        return None;
    }
    Some((tens - b'0') * 10 + (ones - b'0'))
}

// The date that a text without blanks round it spells, if it does, as `Date::new` says it.
fn read_plain(text: &[u8]) -> Option<Date>
    ensures { option_map moment_of result ≡ plain_date text.now }
{
    let &[c0, c1, y0, y1, m0, m1, d0, d1, b'T', ref time @ ..] = text else {
        return None;
    };
    let &[h0, h1, b':', i0, i1, b':', s0, s1] = time else {
        return None;
    };
    let century = two_digits(c0, c1)?;
    let year = two_digits(y0, y1)?;
    let month = two_digits(m0, m1)?;
    let day = two_digits(d0, d1)?;
    let hour = two_digits(h0, h1)?;
    let minute = two_digits(i0, i1)?;
    let second = two_digits(s0, s1)?;
    let year = u16::from(century) * 100 + u16::from(year);
    Date::new(year, month, day, hour, minute, second)
}

// The date that a text spells; without the blanks round it the text is the date's own spelling.
pub fn read_date(text: &[u8]) -> Result<Date, Malformed>
    ensures date { option_map moment_of (result_ok result) ≡ date_of text.now }
    ensures spelling { (m : Moment) → date_of text.now ≡ Some m → withoutBlanks text.now ≡ date_spelling m }
{
    read_plain(unblanked(text)).ok_or(Malformed)
}

// How long the spelling of any date is.
pub fn date_len() -> usize
    ensures { (m : Moment) → result ≡ length (date_spelling m) }
{
    LEN
}

// Writes the spelling of a date.
pub fn write_date(date: &Date, page: &mut [u8]) -> Option<usize>
    ensures page { Writes (date_spelling (moment_of date.now)) page.old page.new result }
    ensures reads_back { date_of (date_spelling (moment_of date.now)) ≡ Some (moment_of date.now) }
{
    write_text(&date.text(), page)
}
