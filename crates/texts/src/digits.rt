// Decimal digits: how many a number has, and writing them.
ghost use Rattle.std.specs.Prelude.{◌≡◌, ℕ, ◌+◌, ◌-◌, ◌*◌, ◌/◌, ◌^◌, ◌<◌, ◌≤◌, length, decimal};
ghost use Rattle.texts.specs.Digits.{padded};

// How many digits a number has; zero has one.
pub fn digit_count(n: u64) -> usize
    ensures value { result ≡ length (decimal n) }
    ensures bound { result ≤ 20 }
{
    n.checked_ilog10().map_or(1, |most| most as usize + 1)
}

// Fills a page with the last digits of a number, zeros in front, and gives what is left of it.
pub fn fill_digits(n: u64, page: &mut [u8]) -> u64
    ensures page { page.new ≡ padded (length page.old) n }
    ensures rest { result ≡ n / 10 ^ length page.old }
{
    let mut rest = n;
    // By index, since what is written through `iter_mut().rev()` is not known behind the loop.
    for i in (0..page.len()).rev() {
        page[i] = b'0' + (rest % 10) as u8;
        rest /= 10;
    }
    rest
}
