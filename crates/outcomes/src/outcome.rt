// What a message came to, as text.
ghost use Rattle.std.specs.Prelude.{Some};
ghost use Rattle.outcomes.specs.Outcomes.{row_lines, accepted_text, refused_text};

use crate::row::RowLine;
use std::fmt;
use wire::refusal::Refusal;
use wire::row::Row;

// A line for each row of a message. It has what `Accepted` has, and is a type of its own for what it shows.
#[derive(Clone, Copy)]
struct RowLines<'m, 'r> {
    message: &'m [u8],
    rows: &'r [Row],
}

impl fmt::Display for RowLines<'_, '_> {
    ghost output = { λ lines. Some (row_lines lines.message.now lines.rows.now) };

    fn fmt<W: fmt::Write>(&self, f: &mut fmt::Formatter<W>) -> fmt::Result {
        let message = self.message;
        for row in self.rows {
            let line = RowLine { row: *row, message };
            writeln!(f, "{line}")?;
        }
        Ok(())
    }
}

// A message that was accepted, and its rows.
#[derive(Clone, Copy)]
pub struct Accepted<'m, 'r> {
    pub message: &'m [u8],
    pub rows: &'r [Row],
}

impl fmt::Display for Accepted<'_, '_> {
    ghost output = { λ accepted. Some (accepted_text accepted.message.now accepted.rows.now) };

    fn fmt<W: fmt::Write>(&self, f: &mut fmt::Formatter<W>) -> fmt::Result {
        let (message, rows) = (self.message, self.rows);
        let count = rows.len();
        let lines = RowLines { message, rows };
        write!(f, "rows {count}\n{lines}")
    }
}

// Why a message was refused.
#[derive(Clone, Copy)]
pub struct Refused(pub Refusal);

impl fmt::Display for Refused {
    ghost output = { λ refused. Some (refused_text refused.0) };

    fn fmt<W: fmt::Write>(&self, f: &mut fmt::Formatter<W>) -> fmt::Result {
        let (number, place) = self.0.told();
        writeln!(f, "refusal {number} at {place}")
    }
}
