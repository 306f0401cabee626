// Cuts a message into runs and tags, one after another.
ghost use Rattle.std.specs.Prelude.{◌≡◌, ℕ, ◌+◌, ◌-◌, ◌≤◌, List, length, take, drop};
ghost use Rattle.std.specs.List.{prefix_len};
ghost use Rattle.parts.specs.Cutting.{tag as tagPiece, in_run, run_at, CutInOneWay};
ghost use Rattle.parts.specs.Next.{begun_at};
ghost use Rattle.parts.specs.declared.reader.Next.TheVariants.{Tag as TagNext};

use crate::declaration::declaration_len;
use crate::name::Name;
use crate::tag::{Tag, tag_of};
use texts::bytes::{Class, leading_of};
use wire::refusal::Refusal;

// A part of a message: its bytes there, and their place.
#[derive(Clone, Copy, PartialEq, Eq, Debug)]
pub struct Part<'a> {
    pub place: usize,
    pub bytes: &'a [u8],
}

#[derive(Clone, Copy, PartialEq, Eq, Debug)]
pub enum Token<'a> {
    Open(Name, Part<'a>),
    Close(Name, Part<'a>),
    Run(Part<'a>),
}

impl<'a> Token<'a> {
    ghost use Rattle.parts.specs.Readers.{piece_of, part_of};

    // A tag as a token. `From` would take the two as a pair.
    fn of_tag(tag: Tag, part: Part<'a>) -> Token<'a>
        ensures piece { piece_of result ≡ tagPiece part.entry.place tag }
        ensures part { part_of result ≡ part.entry }
    {
        match tag {
            Tag::Open(name) => Token::Open(name, part),
            Tag::Close(name) => Token::Close(name, part),
        }
    }
}

// A tag in `/>`, whose close tag is still to come.
#[derive(Clone, Copy, PartialEq, Eq, Debug)]
pub struct Emptied {
    name: Name,
    place: usize,
}

// What comes next. It is data and no closure, since a reader stands still between its calls.
#[derive(Clone, Copy, PartialEq, Eq, Debug)]
pub enum Next {
    Run,
    Tag,
    EmptyRun(Emptied),
    Close(Emptied),
}

// A message, a place in it that is never past its end, and what comes next there. The place is no rest of a slice,
// since it is told of each part.
#[derive(Drop)]
pub struct Reader<'a> {
    message: &'a [u8],
    at: usize,
    next: Next,
    ghost inside: { at ≤ length message.now },
    ghost began: { begun_at next ≤ at },
}

// The bytes of a run: all but `<`.
pub struct RunByte;

impl Class for RunByte {
    ghost member = { in_run };

    fn has(byte: u8) -> bool {
        byte != b'<'
    }
}

impl<'a> Reader<'a> {
    ghost use Rattle.parts.specs.Readers.{parts_left, TokenBorrows, RunInside, Begins, Gives};

    // A reader at the first run of a message, behind its declaration.
    pub fn new(message: &'a [u8]) -> Result<Reader<'a>, Refusal>
        ensures parts { Begins message.now result }
        ensures one_way { (p : ℕ) (bs : List ℕ) → CutInOneWay p bs }
    {
        // Tried as `ok_or(..)?`, here and in `cut_tag`: a goal about the error's conversion stays open.
        match declaration_len(message) {
            Some(at) => Ok(Reader {
                message,
                at,
                next: Next::Run,
            }),
            None => Err(Refusal::OpenDeclaration),
        }
    }

    // Cuts off the run up to the next `<` or the end.
    fn cut_run(&mut self) -> Part<'a>
        ensures same { self.new.message ≡ self.old.message }
        ensures next { self.new.next ≡ self.old.next }
        ensures place { result.place ≡ self.old.at }
        ensures bytes { result.bytes.now ≡ run_at (drop self.old.at self.old.message.now) }
        ensures at { self.new.at ≡ self.old.at + prefix_len in_run (drop self.old.at self.old.message.now) }
    {
        let place = self.at;
        let rest = &self.message[place..];
        let len = leading_of::<RunByte>(rest);
        self.at = place + len;
        Part {
            place,
            bytes: &rest[..len],
        }
    }

    // Cuts off the tag at a `<`; none is left at the end.
    fn cut_tag(&mut self) -> Result<Option<Token<'a>>, Refusal>
        requires { self.old.next ≡ TagNext }
        ensures same { self.new.message ≡ self.old.message }
        ensures gives { Gives (parts_left self.old) result (parts_left self.new) }
        ensures inside { RunInside (length self.old.message.now) result }
        ensures borrows { TokenBorrows self.new result }
    {
        let message = self.message;
        let place = self.at;
        let [_, behind @ ..] = &message[place..] else {
            return Ok(None);
        };
        let Some(spelling) = tag_of(behind) else {
            return Err(Refusal::NotATag(place));
        };
        let end = place + 1 + spelling.len;
        let part = Part {
            place,
            bytes: &message[place..end],
        };
        let name = spelling.tag.name();
        self.at = end;
        self.next = if spelling.empty {
            Next::EmptyRun(Emptied { name, place })
        } else {
            Next::Run
        };
        Ok(Some(Token::of_tag(spelling.tag, part)))
    }

    // The next part of the message.
    pub fn next(&mut self) -> Result<Option<Token<'a>>, Refusal>
        ensures same { self.new.message ≡ self.old.message }
        ensures gives { Gives (parts_left self.old) result (parts_left self.new) }
        ensures inside { RunInside (length self.old.message.now) result }
        ensures borrows { TokenBorrows self.new result }
    {
        match self.next {
            Next::Tag => self.cut_tag(),
            Next::Run => {
                self.next = Next::Tag;
                Ok(Some(Token::Run(self.cut_run())))
            }
            Next::EmptyRun(tag) => {
                self.next = Next::Close(tag);
                Ok(Some(Token::Run(Part {
                    place: self.at,
                    bytes: &[],
                })))
            }
            Next::Close(tag) => {
                self.next = Next::Run;
                Ok(Some(Token::Close(
                    tag.name,
                    Part {
                        place: tag.place,
                        bytes: &self.message[tag.place..self.at],
                    },
                )))
            }
        }
    }
}
