// Why a line has no reading.
use characters::BadCharacters;
use std::alloc::{AllocError, AllocFailed};
use std::fmt;
use texts::Malformed;

#[derive(Clone, Copy)]
pub enum Unread {
    // The line does not name a kind of text and then the text's bytes.
    BadLine,
    // The text breaks its form or its range.
    Refused,
    // The `&` at this offset begins no good reference.
    BadReference(usize),
    OutOfMemory(AllocError),
}

impl From<Malformed> for Unread {
    fn from(_error: Malformed) -> Unread {
        Unread::Refused
    }
}

impl From<BadCharacters> for Unread {
    fn from(error: BadCharacters) -> Unread {
        match error {
            BadCharacters::Byte => Unread::Refused,
            BadCharacters::Reference(at) => Unread::BadReference(at),
        }
    }
}

impl From<AllocError> for Unread {
    fn from(error: AllocError) -> Unread {
        Unread::OutOfMemory(error)
    }
}

impl<T: Drop> From<AllocFailed<T>> for Unread {
    fn from(error: AllocFailed<T>) -> Unread {
        Unread::OutOfMemory(error.into())
    }
}

impl fmt::Display for Unread {
    fn fmt<W: fmt::Write>(&self, f: &mut fmt::Formatter<W>) -> fmt::Result {
        match *self {
            Unread::BadLine => f.write_str("bad line"),
            Unread::Refused => f.write_str("refused"),
            Unread::BadReference(at) => write!(f, "refused {at}"),
            Unread::OutOfMemory(error) => write!(f, "{error}"),
        }
    }
}
