// A date that is a day of the Gregorian calendar, by its type: making one tests the calendar's rule once.
ghost use Rattle.std.specs.Prelude.{◌≡◌, ◌<◌, true, false, MatchOption};
ghost use Rattle.dates.specs.Calendar.{is_day, is_leap, days_in};
ghost use Rattle.texts.specs.Digits.{padded};

// A day in years 0 to 9999 and a time of day, to the second.
#[derive(Clone, Copy, PartialEq, Eq, Debug)]
pub struct Date {
    year: u16,
    month: u8,
    day: u8,
    hour: u8,
    minute: u8,
    second: u8,
    ghost ok: { is_day year month day hour minute second ≡ true },
}

// Whether a year has a 29th of February.
pub fn is_leap(year: u16) -> bool
    ensures { result ≡ is_leap year }
{
    year % 4 == 0 && (year % 100 != 0 || year % 400 == 0)
}

// How many days a month has.
pub fn days_in(year: u16, month: u8) -> u8
    ensures { result ≡ days_in year month }
{
    match month {
        2 if is_leap(year) => 29,
        2 => 28,
        4 | 6 | 9 | 11 => 30,
        _ => 31,
    }
}

// A number below 100 as two digits.
fn two_digits(n: u8) -> [u8; 2]
    requires { n < 100 }
    ensures { result ≡ padded 2 n }
{
    [b'0' + n / 10, b'0' + n % 10]
}

impl Date {
    ghost use Rattle.dates.specs.Dates.{moment_of};
    ghost use Rattle.dates.specs.Moments.{date_spelling};

    // The date with these parts, if the calendar and the clock have it.
    pub fn new(year: u16, month: u8, day: u8, hour: u8, minute: u8, second: u8) -> Option<Date>
        ensures { MatchOption result (is_day year month day hour minute second ≡ false) (λ d. moment_of d ≡ record { year = year; month = month; day = day; hour = hour; minute = minute; second = second }) }
    {
        if year > 9999 || !(1..=12).contains(&month) || !(1..=days_in(year, month)).contains(&day) {
            return None;
        }
        if hour > 23 || minute > 59 || second > 59 {
            return None;
        }
        Some(Date {
            year,
            month,
            day,
            hour,
            minute,
            second,
        })
    }

    // The date as CCYYMMDDTHH:MM:SS. Not by `Display`, since pages take bytes.
    pub fn text(&self) -> [u8; 17]
        ensures { result ≡ date_spelling (moment_of self.now) }
    {
        let [c0, c1] = two_digits((self.year / 100) as u8);
        let [y0, y1] = two_digits((self.year % 100) as u8);
        let [m0, m1] = two_digits(self.month);
        let [d0, d1] = two_digits(self.day);
        let [h0, h1] = two_digits(self.hour);
        let [i0, i1] = two_digits(self.minute);
        let [s0, s1] = two_digits(self.second);
        [
            c0, c1, y0, y1, m0, m1, d0, d1, b'T', h0, h1, b':', i0, i1, b':', s0, s1,
        ]
    }
}
