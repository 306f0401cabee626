// Numbers on a line: decimal, of any size, one space before each.
ghost use Rattle.std.specs.Prelude.{◌≡◌, ℕ, List, [], ◌∷◌, ◌++◌, MatchOption, ◌≢◌};
ghost use Rattle.texts.specs.Digits.{worth};
ghost use Rattle.commands.specs.Numbers.{capped, Spaced};

use texts::bytes::{Digit, leading_of};

// What follows the front that a text begins with.
pub(crate) fn behind<'a>(text: &'a [u8], front: &[u8]) -> Option<&'a [u8]>
    ensures { MatchOption result ((rest : List ℕ) → text.now ≢ front.now ++ rest) (λ rest. text.now ≡ front.now ++ rest.now) }
{
    text.strip_prefix(front)
}

// What digits are worth, or the largest number where they are worth more.
fn capped_worth(digits: &[u8]) -> usize
    ensures { result ≡ capped (worth digits.now) }
{
    digits.iter().fold(0usize, |number, digit| {
        let more = usize::from(digit.saturating_sub(b'0'));
        number.saturating_mul(10).saturating_add(more)
    })
}

// The first of the numbers that a text is, and the text of the others.
fn next_number(text: &[u8]) -> Option<(usize, &[u8])>
    ensures { MatchOption result ((n : ℕ) (ns : List ℕ) → Spaced text.now (n ∷ ns) → ⊥) (λ p. ((ns : List ℕ) → Spaced p.1.now ns → Spaced text.now (p.0 ∷ ns)) × ((n : ℕ) (ns : List ℕ) → Spaced text.now (n ∷ ns) → (p.0 ≡ n) × Spaced p.1.now ns)) }
{
    let rest = behind(text, b" ")?;
    let (digits, others) = rest.split_at(leading_of::<Digit>(rest));
    if digits.is_empty() {
        return None;
    }
    Some((capped_worth(digits), others))
}

// The two numbers that a text is.
pub(crate) fn two_numbers(text: &[u8]) -> Option<(usize, usize)>
    ensures { MatchOption result ((m n : ℕ) → Spaced text.now (m ∷ n ∷ []) → ⊥) (λ p. Spaced text.now (p.0 ∷ p.1 ∷ [])) }
{
    let (first, rest) = next_number(text)?;
    let (second, rest) = next_number(rest)?;
    rest.is_empty().then_some((first, second))
}
