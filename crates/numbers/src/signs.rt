// An optional sign in front of digits, read and written.
ghost use Rattle.std.specs.Prelude.{◌≡◌, ◌^◌, ◌<◌, ◌≤◌, length};
ghost use Rattle.numbers.specs.Signs.{is_minus, after_sign, signed, signed_spelling};

use texts::digits::{digit_count, fill_digits};

// Whether a minus stands first, and what follows the sign. Both are always there: the first is the sign, and no flag
// for the second.
pub(crate) fn split_sign(text: &[u8]) -> (bool, &[u8])
    ensures minus { result.0 ≡ is_minus text.now }
    ensures rest { result.1.now ≡ after_sign text.now }
{
    match text {
        [b'-', rest @ ..] => (true, rest),
        [b'+', rest @ ..] => (false, rest),
        _ => (false, text),
    }
}

// A number as it is spelled: what its digits are worth, and whether a minus stands in front of them.
#[derive(Clone, Copy)]
pub(crate) struct Signed {
    pub(crate) minus: bool,
    pub(crate) magnitude: u64,
}

impl From<i64> for Signed {
    ghost use Rattle.std.specs.Prelude.{◌≡◌, unsigned_abs};
    ghost use Rattle.numbers.specs.Signs.{is_negative};

    ghost from_gives = { λ z s. s ≡ record { minus = is_negative z; magnitude = unsigned_abs z } };

    fn from(number: i64) -> Signed {
        Signed {
            minus: number < 0,
            magnitude: number.unsigned_abs(),
        }
    }
}

impl Signed {
    // The number. No `From`, which could not ask that it fits.
    pub(crate) fn number(self) -> i64
        requires { self.magnitude < 2 ^ 63 }
        ensures { result ≡ signed self.minus self.magnitude }
    {
        let magnitude = self.magnitude as i64;
        if self.minus { -magnitude } else { magnitude }
    }

    // How long the spelling is.
    pub(crate) fn len(self) -> usize
        ensures value { result ≡ length (signed_spelling self.minus self.magnitude) }
        ensures bound { result ≤ 21 }
    {
        usize::from(self.minus) + digit_count(self.magnitude)
    }

    // Writes the spelling to a page of its length. Not by an integer's `Display`, which never gives the `-0` of -0.5.
    pub(crate) fn put(self, page: &mut [u8])
        requires { length page.old ≡ length (signed_spelling self.minus self.magnitude) }
        ensures { page.new ≡ signed_spelling self.minus self.magnitude }
    {
        if self.minus {
            page[0] = b'-';
            fill_digits(self.magnitude, &mut page[1..]);
        } else {
            fill_digits(self.magnitude, page);
        }
    }
}
