// The tag that bytes begin with.
ghost use Rattle.std.specs.Prelude.{◌≡◌, ℕ, ◌+◌, ◌≤◌, length, take, IfSome, Some, None, MatchOption};
ghost use Rattle.parts.specs.Tags.{element_of, AtFront, in_name, named, close_tag, open_tag, name_len, name_end, tag_of};

use crate::name::Name;
use texts::bytes::{Blank, Class, leading_of};

#[derive(Clone, Copy, PartialEq, Eq, Debug)]
pub enum Tag {
    Open(Name),
    Close(Name),
}

impl Tag {
    // The name of the element that a tag opens or closes.
    pub fn name(self) -> Name
        ensures { result ≡ element_of self }
    {
        match self {
            Tag::Open(name) | Tag::Close(name) => name,
        }
    }
}

// A tag as it is spelled: whether it ends in `/>`, and how many bytes it takes behind its `<`.
#[derive(Clone, Copy, PartialEq, Eq, Debug)]
pub struct Spelling {
    pub tag: Tag,
    pub empty: bool,
    pub len: usize,
}

// The bytes that do not end a name.
pub struct NameByte;

impl Class for NameByte {
    ghost member = { in_name };

    fn has(byte: u8) -> bool {
        !matches!(byte, b' ' | b'\n' | b'\t' | b'\r' | b'/' | b'>' | b'<')
    }
}

// This name and its end, where the bytes begin with it and `>` or `/` stands right behind it.
#[inline(always)]
fn ended(bytes: &[u8], name: Name) -> Option<(Name, usize)>
    ensures { IfSome result (AtFront bytes.now) }
{
    let spelled = name.spelling();
    if !bytes.starts_with(spelled) {
        return None;
    }
    let end = spelled.len();
    match &bytes[end..] {
        [b'>' | b'/', ..] => Some((name, end)),
        _ => None,
    }
}

// The name that the bytes begin with, where `>` or `/` stands right behind it: one or two bytes tell which
// it can be. Nothing is also given for names that come once in a message. One slice pattern for each name, tested in
// turn, made cutting a fifth dearer.
#[inline(always)]
fn plain_name(bytes: &[u8]) -> Option<(Name, usize)>
    ensures { IfSome result (AtFront bytes.now) }
{
    match bytes.first()? {
        b'v' => ended(bytes, Name::Value),
        b'm' => ended(bytes, Name::Member),
        b'n' => ended(bytes, Name::MemberName),
        b'p' => ended(bytes, Name::Param),
        b'a' => ended(bytes, Name::Array),
        b's' => match bytes.get(3) {
            Some(b'i') => ended(bytes, Name::String),
            _ => ended(bytes, Name::Struct),
        },
        b'i' => match bytes.get(1) {
            Some(b'n') => ended(bytes, Name::Int),
            _ => ended(bytes, Name::I4),
        },
        b'b' => match bytes.get(1) {
            Some(b'o') => ended(bytes, Name::Boolean),
            _ => ended(bytes, Name::Base64),
        },
        b'd' => match bytes.get(3) {
            Some(b'a') => ended(bytes, Name::Data),
            Some(b'b') => ended(bytes, Name::Double),
            _ => ended(bytes, Name::DateTime),
        },
        _ => None,
    }
}

// The name that the bytes begin with, and where the blanks behind it end.
#[inline(always)]
fn named_until(bytes: &[u8]) -> Option<(Name, usize)>
    ensures { MatchOption result (named (take (name_len bytes.now) bytes.now) ≡ None) (λ p. (named (take (name_len bytes.now) bytes.now) ≡ Some p.0) × (p.1 ≡ name_end bytes.now) × (p.1 ≤ length bytes.now)) }
{
    if let Some(found) = plain_name(bytes) {
        return Some(found);
    }
    let len = leading_of::<NameByte>(bytes);
    let (name, rest) = bytes.split_at(len);
    let name = Name::from_spelling(name)?;
    Some((name, len + leading_of::<Blank>(rest)))
}

// The close tag that the bytes behind `</` begin with.
#[inline(always)]
fn close_tag(bytes: &[u8]) -> Option<Spelling>
    ensures value { result ≡ close_tag bytes.now }
    ensures within { IfSome result (λ s. s.len ≤ length bytes.now + 1) }
{
    let (name, end) = named_until(bytes)?;
    match &bytes[end..] {
        [b'>', ..] => Some(Spelling {
            tag: Tag::Close(name),
            empty: false,
            len: end + 2,
        }),
        _ => None,
    }
}

// The open tag that the bytes behind `<` begin with.
#[inline(always)]
fn open_tag(bytes: &[u8]) -> Option<Spelling>
    ensures value { result ≡ open_tag bytes.now }
    ensures within { IfSome result (λ s. s.len ≤ length bytes.now) }
{
    let (name, end) = named_until(bytes)?;
    match &bytes[end..] {
        [b'>', ..] => Some(Spelling {
            tag: Tag::Open(name),
            empty: false,
            len: end + 1,
        }),
        [b'/', b'>', ..] => Some(Spelling {
            tag: Tag::Open(name),
            empty: true,
            len: end + 2,
        }),
        _ => None,
    }
}

// The tag that the bytes behind `<` begin with.
pub fn tag_of(bytes: &[u8]) -> Option<Spelling>
    ensures value { result ≡ tag_of bytes.now }
    ensures within { IfSome result (λ s. s.len ≤ length bytes.now) }
{
    match bytes {
        [b'/', rest @ ..] => close_tag(rest),
        _ => open_tag(bytes),
    }
}
