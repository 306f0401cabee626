// A row of a message as a line.
ghost use Rattle.std.specs.Prelude.{Some};
ghost use Rattle.hex_texts.specs.Hex.{hex_text};
ghost use Rattle.reader.specs.Contents.{read_as, content_of};
ghost use Rattle.outcomes.specs.Outcomes.{content_line};

use base64_texts::Decoded;
use characters::Characters;
use hex_texts::{Hex, write_bytes};
use std::fmt;
use wire::kind::Kind;
use wire::row::Row;

// The text of a row, as it is stored.
#[derive(Clone, Copy)]
struct RowText<'a> {
    kind: Kind,
    stored: &'a [u8],
}

impl fmt::Display for RowText<'_> {
    ghost output = { λ text. Some (hex_text (read_as text.kind text.stored.now)) };

    fn fmt<W: fmt::Write>(&self, f: &mut fmt::Formatter<W>) -> fmt::Result {
        match self.kind {
            Kind::String | Kind::Member => write_bytes(Characters::new(self.stored), f),
            Kind::Base64 => write_bytes(Decoded::new(self.stored), f),
            _ => f.write(Hex(self.stored)),
        }
    }
}

// A row with the message that its text lies in.
#[derive(Clone, Copy)]
pub struct RowLine<'a> {
    pub row: Row,
    pub message: &'a [u8],
}

impl fmt::Display for RowLine<'_> {
    ghost output = { λ line. Some (content_line (content_of line.message.now line.row)) };

    fn fmt<W: fmt::Write>(&self, f: &mut fmt::Formatter<W>) -> fmt::Result {
        let row = self.row;
        let kind = u8::from(row.kind);
        let (count, number, scale) = (row.count, row.number, row.scale);
        let text = RowText {
            kind: row.kind,
            stored: row.text.cut(self.message),
        };
        write!(f, "{kind} {count} {number} {scale} {text}")
    }
}
