// Texts compared as they are read, character by character.
ghost use Rattle.std.specs.Prelude.{◌≡◌, ℕ, List, ◌∷◌, Decides, MatchOption};
ghost use Rattle.characters.specs.Decoding.{decoded};
ghost use Rattle.characters.specs.Left.{left as toCome};

use crate::cursor::Characters;

// What is left behind a character, if it stands first.
fn behind(mut rest: Characters<'_>, c: u8) -> Option<Characters<'_>>
    ensures { MatchOption result ((cs : List ℕ) → ¬ (toCome rest.entry ≡ c ∷ cs)) (λ t. toCome rest.entry ≡ c ∷ toCome t) }
{
    (rest.next()? == c).then_some(rest)
}

// Whether two texts have the same characters.
pub fn same_characters(a: &[u8], b: &[u8]) -> bool
    ensures { Decides result (decoded a.now ≡ decoded b.now) }
{
    Characters::new(a)
        .try_fold(Characters::new(b), behind)
        .is_some_and(|mut theirs| theirs.next().is_none())
}

// Whether the characters of a text are just these.
pub fn characters_are(text: &[u8], plain: &[u8]) -> bool
    ensures { Decides result (decoded text.now ≡ plain.now) }
{
    plain
        .iter()
        .copied()
        .try_fold(Characters::new(text), behind)
        .is_some_and(|mut characters| characters.next().is_none())
}
