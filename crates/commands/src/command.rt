// What a line asks the console for.
ghost use Rattle.std.specs.Prelude.{MatchResult};
ghost use Rattle.commands.specs.Commands.{Asks};
ghost use Rattle.commands.specs.declared.command.Command.{Command as SomeCommand};

use crate::numbers::{behind, two_numbers};

#[derive(Clone, Copy, Debug, PartialEq, Eq)]
pub enum Command {
    // Reads, at a level, a message that is so many bytes long.
    Read { level: usize, length: usize },
}

// The line asks for no command.
#[derive(Clone, Copy, Debug, PartialEq, Eq)]
pub struct UnknownCommand;

// The command that a line asks for.
impl TryFrom<&[u8]> for Command {
    type Error = UnknownCommand;

    ghost try_from_gives = { λ line r. MatchResult r (λ command. Asks command line.now) (λ _. (command : SomeCommand) → Asks command line.now → ⊥) };

    fn try_from(line: &[u8]) -> Result<Command, UnknownCommand> {
        let (level, length) = behind(line, b"read")
            .and_then(two_numbers)
            .ok_or(UnknownCommand)?;
        Ok(Command::Read { level, length })
    }
}
