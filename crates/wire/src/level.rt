// Levels: how much working memory one message and its answer may take.
ghost use Rattle.std.specs.Prelude.{◌≡◌};
ghost use Rattle.wire.specs.Levels.{level_number, IsLevelOf, rows_at, ink_at};

use crate::refusal::Refusal;

#[derive(Clone, Copy, Debug, PartialEq, Eq)]
pub enum Level {
    One,
    Two,
    Three,
}

// The level that a number names.
impl TryFrom<usize> for Level {
    type Error = Refusal;

    ghost try_from_gives = { IsLevelOf };

    fn try_from(number: usize) -> Result<Level, Refusal> {
        match number {
            1 => Ok(Level::One),
            2 => Ok(Level::Two),
            3 => Ok(Level::Three),
            _ => Err(Refusal::BadSetting),
        }
    }
}

impl Level {
    // How many rows a message, and a response, may have.
    pub fn rows(self) -> usize
        ensures { result ≡ rows_at (level_number self) }
    {
        match self {
            Level::One => 64,
            Level::Two => 512,
            Level::Three => 4_096,
        }
    }

    // How many bytes of text a response may have.
    pub fn ink(self) -> usize
        ensures { result ≡ ink_at (level_number self) }
    {
        match self {
            Level::One => 1_024,
            Level::Two => 8_192,
            Level::Three => 65_536,
        }
    }
}
