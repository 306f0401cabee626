// Why a run stops before its input ends.
use commands::UnknownCommand;
use std::{error, fmt, io};

// What is wrong with the input.
#[derive(Clone, Copy, Debug, PartialEq, Eq)]
pub enum Broken {
    UnknownCommand,
    LongLine,
    CutOff,
    NoNewline,
}

impl fmt::Display for Broken {
    fn fmt<W: fmt::Write>(&self, f: &mut fmt::Formatter<W>) -> fmt::Result {
        f.write_str(match self {
            Broken::UnknownCommand => "no such command",
            Broken::LongLine => "the line is longer than 65536 bytes",
            Broken::CutOff => "cut off by the end of the input",
            Broken::NoNewline => "no newline behind the message",
        })
    }
}

impl error::Error for Broken {}

#[derive(Drop)]
pub enum Stop {
    Broken(Broken),
    Failed(io::Error),
}

impl From<Broken> for Stop {
    fn from(broken: Broken) -> Stop {
        Stop::Broken(broken)
    }
}

impl From<UnknownCommand> for Stop {
    fn from(_error: UnknownCommand) -> Stop {
        Stop::Broken(Broken::UnknownCommand)
    }
}

impl From<io::Error> for Stop {
    fn from(error: io::Error) -> Stop {
        Stop::Failed(error)
    }
}
