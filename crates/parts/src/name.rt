// The names of elements.
ghost use Rattle.std.specs.Prelude.{◌≡◌, MatchOption, ◌≢◌};
ghost use Rattle.parts.specs.Names.{spelled, likely};
ghost use Rattle.parts.specs.Tags.{named};
ghost use Rattle.parts.specs.declared.name.Name.{Name as SomeName};

#[derive(Clone, Copy, PartialEq, Eq, Debug)]
pub enum Name {
    MethodCall,
    MethodResponse,
    MethodName,
    Params,
    Param,
    Value,
    Fault,
    Struct,
    Member,
    MemberName,
    Array,
    Data,
    Int,
    I4,
    Boolean,
    String,
    Double,
    DateTime,
    Base64,
}

impl Name {
    // How a name is spelled in a tag.
    pub fn spelling(self) -> &'static [u8]
        ensures { result.now ≡ spelled self }
    {
        match self {
            Name::MethodCall => b"methodCall",
            Name::MethodResponse => b"methodResponse",
            Name::MethodName => b"methodName",
            Name::Params => b"params",
            Name::Param => b"param",
            Name::Value => b"value",
            Name::Fault => b"fault",
            Name::Struct => b"struct",
            Name::Member => b"member",
            Name::MemberName => b"name",
            Name::Array => b"array",
            Name::Data => b"data",
            Name::Int => b"int",
            Name::I4 => b"i4",
            Name::Boolean => b"boolean",
            Name::String => b"string",
            Name::Double => b"double",
            Name::DateTime => b"dateTime.iso8601",
            Name::Base64 => b"base64",
        }
    }

    // The name that bytes spell. No `TryFrom`: the definition that it is proved equal to gives an option too, and nobody
    // would read the error.
    pub fn from_spelling(bytes: &[u8]) -> Option<Name>
        ensures name { MatchOption result ((n : SomeName) → bytes.now ≢ spelled n) (λ n. bytes.now ≡ spelled n) }
        ensures value { result ≡ named bytes.now }
    {
        let name = likely_name(bytes);
        // Tried by `then_some`: its two answers in one were not found.
        if bytes == name.spelling() {
            Some(name)
        } else {
            None
        }
    }
}

// The one name that bytes may spell, going by their length and one of them: a single comparison then tells.
fn likely_name(bytes: &[u8]) -> Name
    ensures { result ≡ likely bytes.now }
{
    match bytes.len() {
        2 => Name::I4,
        3 => Name::Int,
        4 => match bytes[0] {
            b'n' => Name::MemberName,
            _ => Name::Data,
        },
        5 => match bytes[0] {
            b'v' => Name::Value,
            b'p' => Name::Param,
            b'f' => Name::Fault,
            _ => Name::Array,
        },
        6 => match bytes[4] {
            b'e' => Name::Member,
            b'c' => Name::Struct,
            b'n' => Name::String,
            b'm' => Name::Params,
            b'l' => Name::Double,
            _ => Name::Base64,
        },
        7 => Name::Boolean,
        10 => match bytes[6] {
            b'C' => Name::MethodCall,
            _ => Name::MethodName,
        },
        14 => Name::MethodResponse,
        _ => Name::DateTime,
    }
}
