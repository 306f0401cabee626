// Writing the texts of rows, byte by byte or in groups.
ghost use Rattle.std.specs.Prelude.{◌≡◌, ℕ, List};
ghost use Rattle.std.specs.List.{flat_map};
ghost use Rattle.base64_texts.specs.Base64.{base64_spelling};
ghost use Rattle.characters.specs.Spelling.{escape};
ghost use Rattle.held.specs.Texts.{left};
ghost use Rattle.writer.specs.Pages.{Put};
ghost use Rattle.writer.specs.Texts.{itself, group_of};

use crate::pen::Pen;
use base64_texts::write_base64;
use characters::escaped;
use held::text::Text;

// How a byte of a text is written.
pub(crate) trait Spelling {
    ghost spelled: { ℕ → List ℕ };

    fn put_byte(pen: &mut Pen<'_>, byte: u8)
        ensures { Put pen.old (spelled byte) pen.new };
}

// As it is.
pub(crate) struct Plain;

impl Spelling for Plain {
    ghost spelled = { itself };

    fn put_byte(pen: &mut Pen<'_>, byte: u8) {
        pen.put(&[byte]);
    }
}

// By its reference, where it has one.
pub(crate) struct Escaped;

impl Spelling for Escaped {
    ghost spelled = { escape };

    fn put_byte(pen: &mut Pen<'_>, byte: u8) {
        match escaped(char::from(byte)) {
            Some(reference) => pen.put(reference.as_bytes()),
            None => pen.put(&[byte]),
        }
    }
}

// A text, byte by byte.
pub(crate) fn put_text<S: Spelling>(pen: &mut Pen<'_>, text: Text<'_>)
    ensures { Put pen.old (flat_map S.Spelling.spelled (left text.entry)) pen.new }
{
    for byte in text {
        S::put_byte(pen, byte);
    }
}

// Up to three bytes as four letters.
fn quad(a: u8, b: Option<u8>, c: Option<u8>) -> [u8; 4]
    ensures { result ≡ base64_spelling (group_of a b c) }
{
    let mut letters = [0; 4];
    let _ = match (b, c) {
        (Some(b), Some(c)) => write_base64(&[a, b, c], &mut letters),
        (Some(b), None) => write_base64(&[a, b], &mut letters),
        (None, _) => write_base64(&[a], &mut letters),
    };
    letters
}

// Bytes as base64. They are asked for three by three, since an iterator gives no chunks.
pub(crate) fn put_base64(pen: &mut Pen<'_>, mut text: Text<'_>)
    ensures { Put pen.old (base64_spelling (left text.entry)) pen.new }
{
    while let Some(a) = text.next() {
        let b = text.next();
        let c = text.next();
        pen.put(&quad(a, b, c));
    }
}
