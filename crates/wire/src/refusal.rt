// Refusals: why a call is not answered.
ghost use Rattle.std.specs.Prelude.{◌≡◌};
ghost use Rattle.wire.specs.Refusals.{told};

// The longest message that is not refused as too long.
pub const LONGEST: usize = 65_536;

// One case for each number, in their order; each holds its place where it has one.
#[derive(Clone, Copy, Debug, PartialEq, Eq)]
pub enum Refusal {
    BadSetting,
    MemoryTooSmall,
    MessageTooLong,
    BadByte(usize),
    OpenDeclaration,
    Unfinished(usize),
    NotATag(usize),
    StrayText(usize),
    BadReference(usize),
    BadText(usize),
    MisplacedTag(usize),
    TooDeep(usize),
    TooManyRows,
    RepeatedName(usize),
    BadFault,
    NotACall,
    ResponseTooLarge,
    PageTooSmall,
}

impl Refusal {
    // The number and the place by which a refusal is told. It has a name of its own, since a refusal
    // is two numbers nowhere but where it is told.
    pub fn told(self) -> (u8, usize)
        ensures { result ≡ told self }
    {
        match self {
            Refusal::BadSetting => (1, 0),
            Refusal::MemoryTooSmall => (2, 0),
            Refusal::MessageTooLong => (3, 0),
            Refusal::BadByte(place) => (4, place),
            Refusal::OpenDeclaration => (5, 0),
            Refusal::Unfinished(place) => (6, place),
            Refusal::NotATag(place) => (7, place),
            Refusal::StrayText(place) => (8, place),
            Refusal::BadReference(place) => (9, place),
            Refusal::BadText(place) => (10, place),
            Refusal::MisplacedTag(place) => (11, place),
            Refusal::TooDeep(place) => (12, place),
            Refusal::TooManyRows => (13, 0),
            Refusal::RepeatedName(place) => (14, place),
            Refusal::BadFault => (15, 0),
            Refusal::NotACall => (16, 0),
            Refusal::ResponseTooLarge => (17, 0),
            Refusal::PageTooSmall => (18, 0),
        }
    }
}
