// A cursor that gives the characters of a text one after another.
ghost use Rattle.std.specs.Prelude.{◌≡◌};
ghost use Rattle.characters.specs.Decoding.{decoded};
ghost use Rattle.characters.specs.Left.{left as toCome, Gives, laws_of_characters};
ghost use Rattle.std.specs.Iterator.{item_count};

use crate::unit::unit;
use texts::streams::Stream;

// The characters of a text that are still to come: those of what is left of it.
#[derive(Drop)]
pub struct Characters<'a> {
    rest: &'a [u8],
}

impl<'a> Characters<'a> {
    // All characters of a text, up to its end or to its first bad reference.
    pub fn new(text: &'a [u8]) -> Characters<'a>
        ensures { toCome result ≡ decoded text.now }
    {
        Characters { rest: text }
    }
}

impl<'a> Iterator for Characters<'a> {
    type Item = u8;

    ghost next_gives = { λ cursor given next. Gives cursor given next };

    ghost remaining = { item_count toCome };

    // The next character, or none at the end and from a bad reference on.
    fn next(&mut self) -> Option<u8> {
        let (first, behind) = self.rest.split_first()?;
        let (c, more) = unit(*first, behind)?;
        self.rest = &behind[more..];
        Some(c)
    }
}

impl Stream for Characters<'_> {
    ghost left = { toCome };

    ghost laws = { laws_of_characters };
}
