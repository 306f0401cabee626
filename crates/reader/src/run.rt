// A run of a message.
ghost use Rattle.std.specs.Prelude.{◌≡◌, ◌+◌, ◌^◌, ◌<◌, [], length};

use wire::row::{Span, Store};

// Its place and its bytes, of which a row can tell both.
#[derive(Clone, Copy)]
pub(crate) struct Run<'a> {
    pub place: usize,
    pub bytes: &'a [u8],
    ghost short: { place + length bytes.now < 2 ^ 32 },
}

impl<'a> Run<'a> {
    ghost use Rattle.reader.specs.Runs.{span_at};

    // No bytes, which is what is in hand behind a tag.
    pub(crate) fn none() -> Run<'a>
        ensures { (result.place ≡ 0) × (result.bytes.now ≡ []) }
    {
        Run {
            place: 0,
            bytes: &[],
        }
    }

    // `len` of its bytes from an offset on, as a row holds them.
    pub(crate) fn span_from(self, offset: usize, len: usize) -> Span
        requires { (self.place + offset < 2 ^ 32) × (len < 2 ^ 32) }
        ensures { result ≡ span_at (self.entry.place + offset) len }
    {
        Span {
            store: Store::Message,
            start: (self.place + offset) as u32,
            len: len as u32,
        }
    }

    // All of it.
    pub(crate) fn span(self) -> Span
        ensures { result ≡ span_at self.entry.place (length self.entry.bytes.now) }
    {
        self.span_from(0, self.bytes.len())
    }
}
