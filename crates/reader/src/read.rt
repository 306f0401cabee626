// The parts of a message, read into lent rows.
ghost use Rattle.std.specs.Prelude.{◌≡◌, ◌+◌, ◌^◌, ◌<◌, ◌≤◌, ◌||◌, ◌==◌, length, OnOk, slice_set};
ghost use Rattle.std.specs.List.{prefix_len};
ghost use Rattle.texts.specs.Bytes.{within as spans};
ghost use Rattle.reader.specs.Derivations.{DerivedIsRead, ReadIsDerived, OneMessage};
ghost use Rattle.reader.specs.KnownCases.{KnownCases};
ghost use Rattle.reader.specs.Reading.{ShortRun, Fed, reading, Said, rows_of, within, left_by};
ghost use Rattle.characters.specs.References.{is_character};

use crate::machine::Machine;
use crate::run::Run;
use characters::Character;
use parts::reader::{Part, Reader, Token};
use parts::tag::Tag;
use texts::bytes::{Class, all_of, leading_of};
use wire::refusal::{LONGEST, Refusal};
use wire::row::{Row, blank_first};

// Feeds a token to the machine, with the run before it in hand, and gives the run to go on with.
fn feed<'a>(machine: &mut Machine<'_>, run: Run<'a>, token: Token<'a>) -> Result<Run<'a>, Refusal>
    requires room { machine.old.steps + 2 < 2 ^ 32 }
    requires next { ShortRun token }
    ensures { Fed machine.old run.entry token.entry result machine.new }
{
    let (place, tag) = match token {
        Token::Run(Part { place, bytes }) => return Ok(Run { place, bytes }),
        Token::Open(name, part) => (part.place, Tag::Open(name)),
        Token::Close(name, part) => (part.place, Tag::Close(name)),
    };
    machine.step(run, place, tag)?;
    Ok(Run::none())
}

// The rows of a message's parts, or the first refusal. Rows past the end of the lent ones are counted.
fn read_parts(message: &[u8], rows: &mut [Row]) -> Result<usize, Refusal>
    requires { length message.now ≤ 65536 }
    ensures { Said (reading slice_set message.now rows.old) result rows.new }
{
    let mut reader = Reader::new(message)?;
    let mut machine = Machine::new(rows);
    let mut run = Run::none();
    // A reader is no iterator: behind a refusal it gives the same one again, without end.
    while let Some(token) = reader.next()? {
        run = feed(&mut machine, run, token)?;
    }
    machine.finish(run, message.len())?;
    Ok(machine.used())
}

// The bytes that most messages are made of: no tabs and no carriage returns, so that fewer tests tell them.
pub struct UsualByte;

impl Class for UsualByte {
    ghost member = { λ b. spans 32 126 b || b == 10 };

    fn has(byte: u8) -> bool {
        matches!(byte, b' '..=b'~' | b'\n')
    }
}

// How many bytes at the front may stand in a message. Mostly all may, which is told fast; only else is the
// place of the first bad one looked for.
fn good_bytes(message: &[u8]) -> usize
    ensures value { result ≡ prefix_len is_character message.now }
    ensures bound { result ≤ length message.now }
{
    if all_of::<UsualByte>(message) {
        return message.len();
    }
    if all_of::<Character>(message) {
        return message.len();
    }
    leading_of::<Character>(message)
}

// The rows of a message, or the first refusal, which may leave anything in the lent rows. Message and rows are the
// caller's own, handed on.
fn try_rows(message: &[u8], rows: &mut [Row]) -> Result<usize, Refusal>
    ensures value { result ≡ within (length rows.old) (rows_of message.now) }
    ensures rows { OnOk result (rows.new ≡ left_by result (rows_of message.now) rows.old) }
{
    if message.len() > LONGEST {
        return Err(Refusal::MessageTooLong);
    }
    let good = good_bytes(message);
    if good < message.len() {
        return Err(Refusal::BadByte(good));
    }
    let used = read_parts(message, rows)?;
    if used > rows.len() {
        return Err(Refusal::TooManyRows);
    }
    Ok(used)
}

// The rows of a message, or the first refusal; a refused message leaves the lent rows blank.
// A message is read exactly when the grammar derives it, in one way, and the rows say what it derives.
// Names that come twice, and the value of a fault, are not looked at.
pub fn read_rows(message: &[u8], rows: &mut [Row]) -> Result<usize, Refusal>
    ensures value { result ≡ within (length rows.old) (rows_of message.now) }
    ensures rows { rows.new ≡ left_by result (rows_of message.now) rows.old }
    ensures derived { DerivedIsRead message.now × ReadIsDerived message.now }
    ensures one { OneMessage message.now }
    ensures known { KnownCases }
{
    let read = try_rows(message, rows);
    if read.is_err() {
        let all = rows.len();
        blank_first(rows, all);
    }
    read
}
