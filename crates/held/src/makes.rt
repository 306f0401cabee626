// How the two makes of held messages tell their rows and texts: each method is one call of what the two share.
ghost use Rattle.std.specs.Prelude.{◌≡◌, ℕ, ◌+◌, ◌^◌, ◌<◌, List, [], OnSome, slice_index_or};
ghost use Rattle.held.specs.Stored.{stored_at, said_by, sayings};
ghost use Rattle.held.specs.Texts.{left};
ghost use Rattle.held.specs.Told.{no_row, facts_of, TellsRow};

use crate::composed::Composed;
use crate::held::{Facts, Held};
use crate::message::ReadMessage;
use crate::text::Text;
use base64_texts::Decoded;
use characters::Characters;
use parts::reader::Part;
use wire::kind::Kind;
use wire::row::{Row, Span, Store};

// The stored bytes of a text, a part of the message or of the ink as its span says, with their place there.
pub fn stored<'a>(message: &'a [u8], ink: &'a [u8], span: Span) -> Part<'a>
    ensures place { result.place ≡ span.start }
    ensures bytes { result.bytes.now ≡ stored_at message.now ink.now span }
{
    let bytes = match span.store {
        Store::Message => span.cut(message),
        Store::Ink => span.cut(ink),
    };
    Part {
        place: span.start as usize,
        bytes,
    }
}

// The text of a row as it is read. A message that was read has no ink and a composed one no message, so the two
// memories go one by one, as `stored` takes them.
fn text_of<'a>(message: &'a [u8], ink: &'a [u8], row: Row) -> Text<'a>
    ensures { left result ≡ (said_by message.now ink.now row).text }
{
    let part = stored(message, ink, row.text);
    match row.text.store {
        Store::Ink => Text::plain(part.bytes),
        Store::Message => match row.kind {
            Kind::String | Kind::Member => Text::Characters(Characters::new(part.bytes)),
            Kind::Base64 => Text::Base64(Decoded::new(part.bytes)),
            _ => Text::plain(part.bytes),
        },
    }
}

impl From<Row> for Facts {
    ghost from_gives = { λ row facts. (msg ink : List ℕ) → facts ≡ facts_of (said_by msg ink row) };

    // A row but for its text.
    fn from(row: Row) -> Facts {
        Facts {
            kind: row.kind,
            count: row.count,
            number: row.number,
            scale: row.scale,
        }
    }
}

// The facts of the row at an index.
fn row_at(rows: &[Row], i: usize) -> Option<Facts>
    ensures told { (msg ink : List ℕ) → TellsRow (sayings msg ink rows.now) i result }
    ensures next { OnSome result (i + 1 < 2 ^ 64) }
{
    let row = rows.get(i)?;
    Some(Facts::from(*row))
}

// The text of the row at an index, empty past the last.
fn text_at<'a>(message: &'a [u8], ink: &'a [u8], rows: &[Row], i: usize) -> Text<'a>
    ensures { left result ≡ (slice_index_or (sayings message.now ink.now rows.now) i no_row).text }
{
    match rows.get(i) {
        Some(row) => text_of(message, ink, *row),
        None => Text::plain(b""),
    }
}

impl<'b, 'r> Held for ReadMessage<'b, 'r> {
    ghost said = { λ m. sayings m.bytes.now [] m.rows.now };

    ghost formed = { λ m. m.formed };

    fn len(&self) -> usize {
        self.rows.len()
    }

    fn row(&self, i: usize) -> Option<Facts> {
        row_at(self.rows, i)
    }

    fn text(&self, i: usize) -> Text<'_> {
        text_at(self.bytes, b"", self.rows, i)
    }
}

impl<'i, 'r> Held for Composed<'i, 'r> {
    ghost said = { λ m. sayings [] m.ink.now m.rows.now };

    ghost formed = { λ m. m.formed };

    fn len(&self) -> usize {
        self.rows.len()
    }

    fn row(&self, i: usize) -> Option<Facts> {
        row_at(self.rows, i)
    }

    fn text(&self, i: usize) -> Text<'_> {
        text_at(b"", self.ink, self.rows, i)
    }
}
