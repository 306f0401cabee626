// How many lines there were, and how many of them were texts of each sort.
use crate::reading::Reading;
use crate::unread::Unread;
use std::fmt;

#[derive(Clone, Copy, Default)]
pub struct Tally {
    lines: u64,
    read: u64,
    refused: u64,
}

impl Tally {
    pub(crate) fn count(&mut self, answer: &Result<Reading, Unread>) {
        self.lines = self.lines.saturating_add(1);
        match answer {
            Ok(_) => self.read = self.read.saturating_add(1),
            Err(Unread::Refused | Unread::BadReference(_)) => {
                self.refused = self.refused.saturating_add(1);
            }
            Err(Unread::BadLine | Unread::OutOfMemory(_)) => {}
        }
    }
}

impl fmt::Display for Tally {
    fn fmt<W: fmt::Write>(&self, f: &mut fmt::Formatter<W>) -> fmt::Result {
        let Tally {
            lines,
            read,
            refused,
        } = *self;
        write!(f, "# {lines} lines, {read} read, {refused} refused")
    }
}
