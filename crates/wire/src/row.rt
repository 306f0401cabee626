// Rows: a message is held as rows in reading order, each before its parts.
ghost use Rattle.std.specs.Prelude.{◌≡◌};
ghost use Rattle.wire.specs.Rows.{blank_row, cleared, cut_from};

use crate::kind::Kind;

// The memory that the stored bytes of a text lie in.
#[derive(Clone, Copy, Debug, PartialEq, Eq)]
pub enum Store {
    Message,
    Ink,
}

// Where the stored bytes of a text lie.
#[derive(Clone, Copy, Debug, PartialEq, Eq)]
pub struct Span {
    pub store: Store,
    pub start: u32,
    pub len: u32,
}

impl Span {
    // The part of a memory that it names, as far as that reaches.
    pub fn cut(self, memory: &[u8]) -> &[u8]
        ensures { result.now ≡ cut_from memory.now self }
    {
        let start = self.start as usize;
        let len = self.len as usize;
        let rest = memory.get(start..).unwrap_or(&[]);
        rest.get(..len).unwrap_or(rest)
    }
}

// A struct and no enum with data: every row has a count, a number, a scale and a text, if only an empty one, and its size
// is fixed.
#[derive(Clone, Copy, Debug, PartialEq, Eq)]
pub struct Row {
    pub kind: Kind,
    pub count: u32,
    pub number: i64,
    pub scale: u8,
    pub text: Span,
}

impl Row {
    pub const BLANK: Row = Row {
        kind: Kind::Blank,
        count: 0,
        number: 0,
        scale: 0,
        text: Span {
            store: Store::Message,
            start: 0,
            len: 0,
        },
    };
}

// What fills memory that is not in use.
pub trait Blank: Copy {
    ghost blank: { Self };

    fn blank() -> Self
        ensures { result ≡ blank };
}

impl Blank for Row {
    ghost blank = { blank_row };

    fn blank() -> Row {
        Row::BLANK
    }
}

// Ink.
impl Blank for u8 {
    ghost blank = { 0 };

    fn blank() -> u8 {
        b'\0'
    }
}

// Blanks the first `n` places of a memory, or all where there are fewer, and leaves the rest.
pub fn blank_first<T: Blank>(memory: &mut [T], n: usize)
    ensures { memory.new ≡ cleared T.Blank.blank n memory.old }
{
    let n = n.min(memory.len());
    // `fill` would have the trait carry a law of `clone` besides.
    for place in &mut memory[..n] {
        *place = T::blank();
    }
}
