// The row that a run gives, by where it stands and the tag behind it.
ghost use Rattle.std.specs.Prelude.{◌≡◌, ℕ, ◌+◌, ◌^◌, ◌<◌, ◌≤◌, true, List, length};
ghost use Rattle.reader.specs.Runs.{number_row, text_row, blank_run, characters_run, plain_run, words_run, call_run, value_run, struct_run, run_row};
ghost use Rattle.reader.specs.Moves.{LeavesRow};
ghost use Rattle.table.specs.Entries.{lookup, entries};
ghost use Rattle.table.specs.declared.mode.Plain.TheVariants.{Date};
ghost use Rattle.table.specs.declared.mode.CallMode.TheVariants.{Name as MethodName};

use crate::run::Run;
use base64_texts::check_base64;
use characters::{BadCharacters, count_characters};
use dates::text::read_date;
use numbers::doubles::read_double;
use numbers::ints::read_int;
use parts::tag::Tag;
use table::mode::{CallMode, Mode, Plain, StructMode, ValueMode};
use texts::booleans::read_boolean;
use texts::bytes::{Blank, leading_of};
use texts::methods::read_method_name;
use wire::kind::Kind;
use wire::refusal::Refusal;
use wire::row::{Row, Span};

// A text that reads as a number.
fn number_row(kind: Kind, number: i64, scale: u8) -> Row
    ensures { result ≡ number_row kind number scale }
{
    Row {
        kind,
        number,
        scale,
        ..Row::BLANK
    }
}

// A text that stays as it is stored.
fn text_row(kind: Kind, count: u32, text: Span) -> Row
    ensures { result ≡ text_row kind count text }
{
    Row {
        kind,
        count,
        text,
        ..Row::BLANK
    }
}

// A run that must be blank.
pub(crate) fn blank_run(run: Run<'_>) -> Result<Row, Refusal>
    ensures { result ≡ blank_run run.entry.place run.entry.bytes.now }
{
    let blanks = leading_of::<Blank>(run.bytes);
    if blanks == run.bytes.len() {
        Ok(Row::BLANK)
    } else {
        Err(Refusal::StrayText(run.place + blanks))
    }
}

// A string or a member name.
fn characters_run(kind: Kind, count: u32, run: Run<'_>) -> Result<Row, Refusal>
    ensures { result ≡ characters_run kind count run.entry.place run.entry.bytes.now }
{
    match count_characters(run.bytes) {
        Ok(_) => Ok(text_row(kind, count, run.span())),
        Err(BadCharacters::Reference(at)) => Err(Refusal::BadReference(run.place + at)),
        Err(BadCharacters::Byte) => Err(Refusal::BadReference(run.place)),
    }
}

fn method_run(run: Run<'_>) -> Result<Row, Refusal>
    ensures { result ≡ call_run MethodName run.entry.place run.entry.bytes.now }
{
    read_method_name(run.bytes).map_err(|_| Refusal::BadText(run.place))?;
    Ok(text_row(Kind::Call, 0, run.span()))
}

fn date_run(run: Run<'_>) -> Result<Row, Refusal>
    ensures { result ≡ plain_run Date run.entry.place run.entry.bytes.now }
{
    let blanks = leading_of::<Blank>(run.bytes);
    read_date(run.bytes).map_err(|_| Refusal::BadText(run.place))?;
    Ok(text_row(Kind::Date, 0, run.span_from(blanks, 17)))
}

// The text of a plain value.
fn plain_run(plain: Plain, run: Run<'_>) -> Result<Row, Refusal>
    ensures { result ≡ plain_run plain run.entry.place run.entry.bytes.now }
{
    let refused = |_| Refusal::BadText(run.place);
    match plain {
        Plain::Int | Plain::I4 => read_int(run.bytes)
            .map(|number| number_row(Kind::Int, i64::from(number), 0))
            .map_err(refused),
        Plain::Boolean => read_boolean(run.bytes)
            .map(|value| number_row(Kind::Boolean, i64::from(value), 0))
            .map_err(refused),
        Plain::String => characters_run(Kind::String, 0, run),
        Plain::Double => read_double(run.bytes)
            .map(|(number, scale)| number_row(Kind::Double, number, scale))
            .map_err(refused),
        Plain::Date => date_run(run),
        Plain::Base64 => {
            let row = text_row(Kind::Base64, 0, run.span());
            check_base64(run.bytes).map(|_| row).map_err(refused)
        }
    }
}

// A run in a value: a string before a close tag, else blank.
fn value_run(mode: ValueMode, tag: Tag, run: Run<'_>) -> Result<Row, Refusal>
    ensures { result ≡ value_run mode tag run.entry.place run.entry.bytes.now }
{
    match mode {
        ValueMode::Begun => match tag {
            Tag::Open(_) => blank_run(run),
            Tag::Close(_) => characters_run(Kind::String, 0, run),
        },
        ValueMode::Text(plain) => plain_run(plain, run),
        ValueMode::Typed => blank_run(run),
    }
}

// Whether a run must be blank, where it stands before this tag. Mode and tag go together as the key of the table.
pub(crate) fn must_be_blank(mode: Mode, tag: Tag) -> bool
    ensures blank { result ≡ true → (p : ℕ) (bs : List ℕ) → run_row mode tag p bs ≡ blank_run p bs }
    ensures leaves { result ≡ true → LeavesRow (lookup tag (entries mode)) }
{
    match mode {
        Mode::Value(ValueMode::Begun) => match tag {
            Tag::Open(_) => true,
            Tag::Close(_) => false,
        },
        Mode::Value(ValueMode::Text(_)) => false,
        Mode::Call(CallMode::Name) | Mode::Struct(StructMode::Name) => false,
        Mode::Start
        | Mode::Call(_)
        | Mode::Response(_)
        | Mode::Value(ValueMode::Typed)
        | Mode::Struct(_)
        | Mode::Array(_)
        | Mode::Finished => true,
    }
}

// The row that a run gives, by where it stands and the tag behind it.
pub(crate) fn run_row(mode: Mode, tag: Tag, run: Run<'_>) -> Result<Row, Refusal>
    ensures { result ≡ run_row mode tag run.entry.place run.entry.bytes.now }
{
    match mode {
        Mode::Value(mode) => value_run(mode, tag, run),
        Mode::Call(CallMode::Name) => method_run(run),
        Mode::Struct(StructMode::Name) => characters_run(Kind::Member, 1, run),
        Mode::Start
        | Mode::Call(_)
        | Mode::Response(_)
        | Mode::Struct(_)
        | Mode::Array(_)
        | Mode::Finished => blank_run(run),
    }
}
