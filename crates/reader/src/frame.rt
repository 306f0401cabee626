// What holds values and is open.
ghost use Rattle.std.specs.Prelude.{◌≡◌, ◌^◌, ◌<◌};

use table::mode::Shape;
use wire::kind::Kind;
use wire::row::{Row, Span, Store};

// Its row, how many values it holds so far, and the name of the method where it is a call.
#[derive(Clone, Copy, Debug, PartialEq, Eq)]
pub struct Frame {
    pub shape: Shape,
    pub row: usize,
    pub count: usize,
    pub name: Span,
}

impl Frame {
    ghost use Rattle.reader.specs.Steps.{holder_row};

    // Nothing in it yet.
    pub(crate) const EMPTY: Frame = Frame {
        shape: Shape::Call,
        row: 0,
        count: 0,
        name: Span {
            store: Store::Message,
            start: 0,
            len: 0,
        },
    };

    // Its row, when it is closed.
    pub(crate) fn holder_row(self) -> Row
        requires { self.count < 2 ^ 32 }
        ensures { result ≡ holder_row self }
    {
        // Both types are of other crates, so no `From` can stand here.
        let kind = match self.shape {
            Shape::Call => Kind::Call,
            Shape::Response => Kind::Response,
            Shape::Fault => Kind::Fault,
            Shape::Struct => Kind::Struct,
            Shape::Array => Kind::Array,
        };
        Row {
            kind,
            count: self.count as u32,
            text: self.name,
            ..Row::BLANK
        }
    }
}
