// What a row of a message stands for.
ghost use Rattle.std.specs.Prelude.{◌≡◌};
ghost use Rattle.wire.specs.Kinds.{kind_number};

#[derive(Clone, Copy, Debug, PartialEq, Eq)]
pub enum Kind {
    Blank = 0,
    Call = 1,
    Response = 2,
    Fault = 3,
    Int = 4,
    Boolean = 5,
    String = 6,
    Double = 7,
    Date = 8,
    Base64 = 9,
    Struct = 10,
    Member = 11,
    Array = 12,
}

// The number by which a kind is told outside the program.
impl From<Kind> for u8 {
    ghost from_gives = { λ kind number. number ≡ kind_number kind };

    fn from(kind: Kind) -> u8 {
        kind as u8
    }
}
