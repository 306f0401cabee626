// Which messages are read at all.
#![tactic(auto)]

ghost use Rattle.frames.specs.Frames.{Admits};

use wire::level::Level;
use wire::refusal::{LONGEST, Refusal};

// The level at which a message of a length is read, or why it is refused unseen.
pub fn admit(level: usize, length: usize) -> Result<Level, Refusal>
    ensures { Admits level length result }
{
    let level = Level::try_from(level)?;
    if length > LONGEST {
        return Err(Refusal::MessageTooLong);
    }
    Ok(level)
}
