// The text of a row, byte by byte as it is read.
ghost use Rattle.std.specs.Prelude.{◌≡◌};
ghost use Rattle.held.specs.Texts.{left as toCome};
ghost use Rattle.std.specs.Iterator.{YieldsFirst, item_count};

use base64_texts::Decoded;
use characters::Characters;
use std::slice::Iter;

// A text as it is stored, and how it is read: as it stands, with references, or as base64. Which of the three it is
// shows when a row is asked for, so the cursors share an enum.
#[derive(Drop)]
pub enum Text<'a> {
    Plain(Iter<'a, u8>),
    Characters(Characters<'a>),
    Base64(Decoded<'a>),
}

impl<'a> Text<'a> {
    // Bytes that stand for themselves.
    pub fn plain(bytes: &'a [u8]) -> Text<'a>
        ensures { toCome result ≡ bytes.now }
    {
        Text::Plain(bytes.iter())
    }
}

impl<'a> Iterator for Text<'a> {
    type Item = u8;

    ghost next_gives = { YieldsFirst toCome };

    ghost remaining = { item_count toCome };

    // The next byte of the text.
    fn next(&mut self) -> Option<u8> {
        match self {
            Text::Plain(text) => text.next().copied(),
            Text::Characters(text) => text.next(),
            Text::Base64(text) => text.next(),
        }
    }
}
