// An input of lines and counted bytes, which knows how many lines have ended.
ghost use Rattle.std.specs.Prelude.{◌≡◌, ◌<◌, length, IfOk, count_by, nat_eq};
ghost use Rattle.console.specs.Lines.{Within};

use crate::stop::{Broken, Stop};
use std::io;
use std::io::{ErrorKind, Read};

// How many line feeds the bytes hold.
fn line_feeds(bytes: &[u8]) -> usize
    ensures { result ≡ count_by (λ b. nat_eq b 10) bytes.now }
{
    // A loop: a `fold` took half as long again, `filter` and `count` two and a half times as long.
    let mut count = 0;
    for byte in bytes {
        count += usize::from(*byte == b'\n');
    }
    count
}

#[derive(Drop)]
pub struct Input<R> {
    source: R,
    lines: usize,
}

impl<R: Read> Input<R> {
    pub(crate) fn new(source: R) -> Input<R> {
        Input { source, lines: 0 }
    }

    // The number of the line that comes next, from 1.
    pub(crate) fn line_number(&self) -> usize {
        self.lines.saturating_add(1)
    }

    // Fills the part with what comes next.
    pub(crate) fn fill(&mut self, part: &mut [u8]) -> Result<(), Stop> {
        self.source
            .read_exact(part)
            .map_err(|error| match error.kind() {
                ErrorKind::UnexpectedEof => Stop::Broken(Broken::CutOff),
                _ => Stop::Failed(error),
            })?;
        self.lines = self.lines.saturating_add(line_feeds(part));
        Ok(())
    }

    // Passes over bytes, which go through the buffer.
    pub(crate) fn skip(&mut self, count: usize, buffer: &mut [u8]) -> Result<(), Stop>
        requires { 0 < length buffer.old }
    {
        for _ in 0..count / buffer.len() {
            self.fill(buffer)?;
        }
        let rest = count % buffer.len();
        self.fill(&mut buffer[..rest])
    }

    // The byte that comes next; nothing at the end.
    fn next_byte(&mut self) -> Result<Option<u8>, Stop> {
        let mut one = [0u8; 1];
        match self.fill(&mut one) {
            Ok(()) => Ok(Some(one[0])),
            Err(Stop::Broken(_)) => Ok(None),
            Err(stop) => Err(stop),
        }
    }

    // Takes the next line into the buffer, without its line feed, and gives its length; nothing at the end. By
    // `read_until` it would grow with the line.
    pub(crate) fn line(&mut self, buffer: &mut [u8]) -> Result<Option<usize>, Stop>
        ensures { IfOk result (λ n. Within n (length buffer.old)) }
    {
        for (len, place) in buffer.iter_mut().enumerate() {
            match self.next_byte()? {
                Some(b'\n') => return Ok(Some(len)),
                Some(byte) => *place = byte,
                None if len == 0 => return Ok(None),
                None => return Err(Broken::CutOff.into()),
            }
        }
        Err(Broken::LongLine.into())
    }

    // Passes over the line feed behind a message.
    pub(crate) fn newline(&mut self) -> Result<(), Stop> {
        match self.next_byte()? {
            Some(b'\n') => Ok(()),
            Some(_) => Err(Broken::NoNewline.into()),
            None => Err(Broken::CutOff.into()),
        }
    }
}
