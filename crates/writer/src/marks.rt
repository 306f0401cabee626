// The canonical form row by row: the fixed bytes round a row's text and its parts.
ghost use Rattle.std.specs.Prelude.{◌≡◌};
ghost use Rattle.writer.specs.Tables.{front_of, back_of, close_of, before_of, after_of};

use wire::kind::Kind;

// In front of the text.
pub(crate) fn front(kind: Kind) -> &'static [u8]
    ensures { result.now ≡ front_of kind }
{
    match kind {
        Kind::Blank => b"",
        Kind::Call => b"<?xml version=\"1.0\"?><methodCall><methodName>",
        Kind::Response => b"<?xml version=\"1.0\"?><methodResponse><params>",
        Kind::Fault => b"<?xml version=\"1.0\"?><methodResponse><fault>",
        Kind::Int => b"<value><int>",
        Kind::Boolean => b"<value><boolean>",
        Kind::String => b"<value><string>",
        Kind::Double => b"<value><double>",
        Kind::Date => b"<value><dateTime.iso8601>",
        Kind::Base64 => b"<value><base64>",
        Kind::Struct => b"<value><struct>",
        Kind::Member => b"<member><name>",
        Kind::Array => b"<value><array><data>",
    }
}

// Behind the text, in front of the parts.
pub(crate) fn back(kind: Kind, count: u32) -> &'static [u8]
    ensures { result.now ≡ back_of kind count }
{
    match kind {
        Kind::Call if count == 0 => b"</methodName>",
        Kind::Call => b"</methodName><params>",
        Kind::Int => b"</int></value>",
        Kind::Boolean => b"</boolean></value>",
        Kind::String => b"</string></value>",
        Kind::Double => b"</double></value>",
        Kind::Date => b"</dateTime.iso8601></value>",
        Kind::Base64 => b"</base64></value>",
        Kind::Member => b"</name>",
        Kind::Blank | Kind::Response | Kind::Fault | Kind::Struct | Kind::Array => b"",
    }
}

// Behind the last part.
pub(crate) fn close(kind: Kind, count: u32) -> &'static [u8]
    ensures { result.now ≡ close_of kind count }
{
    match kind {
        Kind::Call if count == 0 => b"</methodCall>",
        Kind::Call => b"</params></methodCall>",
        Kind::Response => b"</params></methodResponse>",
        Kind::Fault => b"</fault></methodResponse>",
        Kind::Struct => b"</struct></value>",
        Kind::Member => b"</member>",
        Kind::Array => b"</data></array></value>",
        Kind::Blank
        | Kind::Int
        | Kind::Boolean
        | Kind::String
        | Kind::Double
        | Kind::Date
        | Kind::Base64 => b"",
    }
}

// In front of each part; this and the next are two columns of the table in specs/.
pub(crate) fn before(kind: Kind) -> &'static [u8]
    ensures { result.now ≡ before_of kind }
{
    match kind {
        Kind::Call | Kind::Response => b"<param>",
        _ => b"",
    }
}

// Behind each part.
pub(crate) fn after(kind: Kind) -> &'static [u8]
    ensures { result.now ≡ after_of kind }
{
    match kind {
        Kind::Call | Kind::Response => b"</param>",
        _ => b"",
    }
}
