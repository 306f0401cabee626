// A whole message: its rows, or its first refusal.
ghost use Rattle.std.specs.Prelude.{◌≡◌, ◌≤◌, length, IfOk, MatchResult};
ghost use Rattle.wire.specs.Levels.{level_number, rows_at};
ghost use Rattle.wire.specs.Trees.{Message};
ghost use Rattle.reader.specs.Derivations.{Say};
ghost use Rattle.reader.specs.KnownCases.{KnownCases};
ghost use Rattle.messages.specs.Answers.{Sound, Flawed, Answer, OneAnswer, AcceptedIsMessage, MessageIsAccepted, OneReading};

use crate::parsed::Parsed;
use reader::{fault_fits, read_rows};
use wire::level::Level;
use wire::refusal::Refusal;
use wire::row::{Row, blank_first};

// Whether rows that the grammar derives are a message, or else what is wrong with them.
fn judge(parsed: Parsed<'_, '_>) -> Result<(), Refusal>
    requires { (m : Message) × Say parsed.message.now parsed.rows.now m }
    ensures { MatchResult result (λ _. Sound parsed.entry.message.now parsed.entry.rows.now) (λ e. Flawed parsed.entry.message.now parsed.entry.rows.now e) }
{
    if let Some(i) = parsed.first_repeat() {
        return Err(Refusal::RepeatedName(parsed.rows[i].text.start as usize));
    }
    if !fault_fits(parsed.message, parsed.rows) {
        return Err(Refusal::BadFault);
    }
    Ok(())
}

// The rows of a message, or the first refusal, with all of the lent rows.
fn read_within(message: &[u8], rows: &mut [Row]) -> Result<usize, Refusal>
    requires { length rows.old ≤ 4096 }
    ensures { Answer (length rows.old) message.now rows.old result rows.new }
{
    let used = read_rows(message, rows)?;
    let parsed = Parsed {
        message,
        rows: &rows[..used],
    };
    if let Err(refusal) = judge(parsed) {
        let all = rows.len();
        blank_first(rows, all);
        return Err(refusal);
    }
    Ok(used)
}

// The rows of a message at a level, or its first refusal. It is accepted exactly when it is a message
// of the format whose rows fit the level.
pub fn read(level: Level, message: &[u8], rows: &mut [Row]) -> Result<usize, Refusal>
    ensures answer { Answer (rows_at (level_number level)) message.now rows.old result rows.new }
    ensures within { IfOk result (λ n. n ≤ length rows.old) }
    ensures one { OneAnswer (rows_at (level_number level)) message.now rows.old }
    ensures accepts { AcceptedIsMessage (rows_at (level_number level)) message.now × MessageIsAccepted (rows_at (level_number level)) message.now }
    ensures readings { OneReading message.now }
    ensures known { KnownCases }
{
    let room = level.rows();
    if rows.len() < room {
        return Err(Refusal::MemoryTooSmall);
    }
    read_within(message, &mut rows[..room])
}
