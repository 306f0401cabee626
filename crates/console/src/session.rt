// A run of the console: command by command, to the end of the input or to the first that cannot be done.
ghost use Rattle.std.specs.Prelude.{◌<◌, ◌≤◌, length};

use crate::input::Input;
use crate::stop::{Broken, Stop};
use anyhow::anyhow;
use commands::Command;
use frames::admit;
use messages::read;
use outcomes::{Accepted, Refused};
use std::alloc::Global;
use std::io::{BufReader, BufWriter, Read, Write};
use std::ops::ControlFlow;
use std::{fmt, io};
use totals::Totals;
use wire::level::Level;
use wire::refusal::{LONGEST, Refusal};
use wire::row::Row;

// The buffer and the rows, and how much of the buffer is a message, go beside it: what a message in them came to is said
// while the session changes.
#[derive(Drop)]
struct Session<R, W> {
    input: Input<R>,
    output: W,
    totals: Totals,
}

// How a run ended: at the end of its input, or at a line that cannot be done.
#[derive(Clone, Copy, Debug, PartialEq, Eq)]
pub enum End {
    Whole,
    Broken,
}

impl<R: Read, W: Write> Session<R, W> {
    // Says what a message came to.
    fn say(&mut self, outcome: &impl fmt::Display) -> io::Result<()> {
        write!(self.output, "{outcome}")?;
        self.output.flush()
    }

    // Says that a message was read, into which rows, and counts it.
    fn accept(&mut self, message: &[u8], rows: &[Row]) -> io::Result<()> {
        self.totals.accept();
        self.say(&Accepted { message, rows })
    }

    // Says that a message was refused, and counts it.
    fn refuse(&mut self, refusal: Refusal) -> io::Result<()> {
        self.totals.refuse(refusal);
        self.say(&Refused(refusal))
    }

    // Takes a message of a length, reads it at a level, and says what it came to.
    fn read(
        &mut self,
        level: Level,
        count: usize,
        buffer: &mut [u8],
        rows: &mut [Row],
    ) -> Result<(), Stop>
        requires { count ≤ length buffer.old }
    {
        self.input.fill(&mut buffer[..count])?;
        self.input.newline()?;
        let message = &buffer[..count];
        match read(level, message, rows) {
            Ok(used) => self.accept(message, &rows[..used])?,
            Err(refusal) => self.refuse(refusal)?,
        }
        Ok(())
    }

    // Passes over a message that is refused unseen, and says so.
    fn pass(&mut self, refusal: Refusal, count: usize, buffer: &mut [u8]) -> Result<(), Stop>
        requires { 0 < length buffer.old }
    {
        self.input.skip(count, buffer)?;
        self.input.newline()?;
        self.refuse(refusal)?;
        Ok(())
    }

    // Does what the next line asks for, or breaks where there is none.
    fn step(&mut self, buffer: &mut [u8], rows: &mut [Row]) -> Result<ControlFlow<()>, Stop>
        requires { 65536 ≤ length buffer.old }
    {
        let Some(end) = self.input.line(buffer)? else {
            return Ok(ControlFlow::Break(()));
        };
        match Command::try_from(&buffer[..end])? {
            Command::Read { level, length } => match admit(level, length) {
                Ok(level) => self.read(level, length, buffer, rows)?,
                Err(refusal) => self.pass(refusal, length, buffer)?,
            },
        }
        Ok(ControlFlow::Continue(()))
    }

    // Says at which line, and why, the run stops, if it is the input's fault.
    fn stop(&mut self, line: usize, stop: Stop) -> anyhow::Result<End> {
        match stop {
            Stop::Failed(error) => Err(error.into()),
            Stop::Broken(broken) => {
                writeln!(self.output, "# line {line}: {broken}")?;
                Ok(End::Broken)
            }
        }
    }

    // Goes on to the end of the input, or to the first line that cannot be done.
    fn go_on(&mut self, buffer: &mut [u8], rows: &mut [Row]) -> anyhow::Result<End>
        requires { 65536 ≤ length buffer.old }
    {
        // A loop that waits on input has no measure but a count.
        for _ in 0..u64::MAX {
            let line = self.input.line_number();
            match self.step(buffer, rows) {
                Ok(ControlFlow::Continue(())) => {}
                Ok(ControlFlow::Break(())) => break,
                Err(stop) => return self.stop(line, stop),
            }
        }
        Ok(End::Whole)
    }
}

// Does what the lines of an input ask for, and says on an output what each came to.
pub fn run<R: Read + Drop, W: Write + Drop>(
    heap: Global,
    input: R,
    output: W,
) -> anyhow::Result<End> {
    let mut buffer = vec![in heap; 0u8; LONGEST]?;
    let mut rows = vec![in heap; Row::BLANK; Level::Three.rows()]?;
    let mut session = Session {
        input: Input::new(input),
        output,
        totals: Totals::new(),
    };
    let end = session.go_on(buffer.as_mut_slice(), rows.as_mut_slice())?;
    let Session {
        input: _,
        mut output,
        totals,
    } = session;
    writeln!(output, "{totals}")?;
    output.flush()?;
    Ok(end)
}

// Runs the console over standard input and output. It fails where the input is broken, which is told on the output, or
// where reading or writing fails, which is told on standard error.
pub fn serve(rt: &HostRuntime) -> anyhow::Result<()> {
    let input = BufReader::new(rt.alloc(), rt.stdin())?;
    let output = BufWriter::new(rt.alloc(), rt.stdout())?;
    match run(rt.alloc(), input, output)? {
        End::Whole => Ok(()),
        End::Broken => Err(anyhow!("the input is broken")),
    }
}
