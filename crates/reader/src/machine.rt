// The reading of a message, one run and tag at a time, into lent rows.
ghost use Rattle.std.specs.Prelude.{◌≡◌, ℕ, ◌+◌, ◌^◌, ◌<◌, ◌≤◌, List, [], length, All, slice_set, nat_lt};
ghost use Rattle.wire.specs.declared.row.Row.{Row as SomeRow};
ghost use Rattle.table.specs.declared.mode.Mode.TheVariants.{Start};
ghost use Rattle.reader.specs.Steps.{st, inside_of, after_of, past_of, leave, nest, unnest, named, faulted, act, step, finish};
ghost use Rattle.reader.specs.Moves.{LeavesRow};

use crate::frame::Frame;
use crate::run::Run;
use crate::runs::{blank_run, must_be_blank, run_row};
use crate::stack::Stack;
use parts::tag::Tag;
use table::mode::{ArrayMode, CallMode, Mode, Move, ResponseMode, Shape, StructMode, ValueMode};
use table::moves::move_at;
use wire::refusal::Refusal;
use wire::row::Row;

// The lent rows, where the reading stands, what is open, how many rows there are, also past the end of the lent ones,
// and how many steps were made, which bounds what is counted. That a method has room for its steps is no fact of the
// type, since each step takes of it: callers ask for it.
#[derive(Drop)]
pub(crate) struct Machine<'r> {
    rows: &'r mut [Row],
    mode: Mode,
    stack: Stack,
    used: usize,
    steps: usize,
    ghost few: { used ≤ steps },
    ghost counts: { All (λ frame. frame.count ≤ steps) stack },
}

// Where what holds values begins.
fn inside(shape: Shape) -> Mode
    ensures { result ≡ inside_of shape }
{
    match shape {
        Shape::Call => Mode::Call(CallMode::Begun),
        Shape::Response => Mode::Response(ResponseMode::Begun),
        Shape::Fault => Mode::Response(ResponseMode::Fault),
        Shape::Struct => Mode::Struct(StructMode::Members),
        Shape::Array => Mode::Array(ArrayMode::Begun),
    }
}

// Where it goes on behind a value.
fn after(shape: Shape) -> Mode
    ensures { result ≡ after_of shape }
{
    match shape {
        Shape::Call => Mode::Call(CallMode::ParamDone),
        Shape::Response => Mode::Response(ResponseMode::ParamDone),
        Shape::Fault => Mode::Response(ResponseMode::FaultDone),
        Shape::Struct => Mode::Struct(StructMode::MemberDone),
        Shape::Array => Mode::Array(ArrayMode::Data),
    }
}

// Where the reading goes on behind it.
fn past(shape: Shape) -> Mode
    ensures { result ≡ past_of shape }
{
    match shape {
        Shape::Call | Shape::Response | Shape::Fault => Mode::Finished,
        Shape::Struct | Shape::Array => Mode::Value(ValueMode::Typed),
    }
}

// Puts a row at an index; past the end of the rows nothing is put. Of what `get_mut` lends nothing is known later.
fn store(rows: &mut [Row], i: usize, row: Row)
    ensures { rows.new ≡ slice_set rows.old i row }
{
    if i < rows.len() {
        rows[i] = row;
    }
}

impl<'r> Machine<'r> {
    ghost use Rattle.reader.specs.Held.{state, outcome, Turn};

    pub(crate) fn new(rows: &'r mut [Row]) -> Machine<'r>
        ensures same_rows { result.rows.ghost_name ≡ rows.entry.ghost_name }
        ensures steps { result.steps ≡ 0 }
        ensures state { state result ≡ st Start [] 0 rows.old }
    {
        Machine {
            rows,
            mode: Mode::Start,
            stack: Stack::new(),
            used: 0,
            steps: 0,
        }
    }

    // A value is closed.
    fn leave(&mut self)
        requires { self.old.steps < 2 ^ 32 }
        ensures same_rows { self.new.rows.ghost_name ≡ self.old.rows.ghost_name }
        ensures tick { self.new.steps ≡ self.old.steps + 1 }
        ensures does { state self.new ≡ leave self.old.stack self.old.used self.old.rows.now }
    {
        self.steps += 1;
        let Some(holder) = self.stack.pop() else {
            self.mode = Mode::Finished;
            return;
        };
        self.mode = after(holder.shape);
        self.stack.push(Frame {
            count: holder.count + 1,
            ..holder
        });
    }

    // What holds values opens.
    fn nest(&mut self, shape: Shape, place: usize) -> Result<(), Refusal>
        requires { self.old.steps < 2 ^ 32 }
        ensures { Turn 2 self.old (nest slice_set (nat_lt (length self.old.stack) 17) shape self.old.stack place self.old.used self.old.rows.now) result self.new }
    {
        if self.stack.is_full() {
            return Err(Refusal::TooDeep(place));
        }
        store(self.rows, self.used, Row::BLANK);
        self.stack.push(Frame {
            shape,
            row: self.used,
            ..Frame::EMPTY
        });
        self.used += 1;
        self.steps += 1;
        self.mode = inside(shape);
        Ok(())
    }

    // What holds values closes: its row has its count.
    fn unnest(&mut self, place: usize) -> Result<(), Refusal>
        requires { self.old.steps < 2 ^ 32 }
        ensures { Turn 2 self.old (unnest slice_set self.old.stack place self.old.used self.old.rows.now) result self.new }
    {
        let holder = self.stack.pop().ok_or(Refusal::MisplacedTag(place))?;
        store(self.rows, holder.row, holder.holder_row());
        self.mode = past(holder.shape);
        Ok(())
    }

    // The run is the method's name, which the call's row will have. With `fault` it shares `pop` and `push`: the field
    // and the mode differ.
    fn name(&mut self, row: Row, place: usize) -> Result<(), Refusal>
        ensures { Turn 0 self.old (named slice_set self.old.stack place row self.old.used self.old.rows.now) result self.new }
    {
        let call = self.stack.pop().ok_or(Refusal::MisplacedTag(place))?;
        self.stack.push(Frame {
            name: row.text,
            ..call
        });
        self.mode = Mode::Call(CallMode::Named);
        Ok(())
    }

    // The response is a fault.
    fn fault(&mut self, place: usize) -> Result<(), Refusal>
        ensures { Turn 0 self.old (faulted slice_set self.old.stack place self.old.used self.old.rows.now) result self.new }
    {
        let response = self.stack.pop().ok_or(Refusal::MisplacedTag(place))?;
        self.stack.push(Frame {
            shape: Shape::Fault,
            ..response
        });
        self.mode = Mode::Response(ResponseMode::Fault);
        Ok(())
    }

    // The run's row is put behind the others.
    fn emit(&mut self, row: Row)
        requires { self.old.steps < 2 ^ 32 }
        ensures same_rows { self.new.rows.ghost_name ≡ self.old.rows.ghost_name }
        ensures rows { self.new.rows.now ≡ slice_set self.old.rows.now self.old.used row }
        ensures tick { self.new.steps ≡ self.old.steps + 1 }
        ensures used { self.new.used ≡ self.old.used + 1 }
        ensures stack { self.new.stack ≡ self.old.stack }
    {
        store(self.rows, self.used, row);
        self.used += 1;
        self.steps += 1;
    }

    // Does what a tag at a place does that leaves the run before it alone.
    #[inline(always)]
    fn pass(&mut self, does: Option<Move>, place: usize) -> Result<(), Refusal>
        requires room { self.old.steps + 2 < 2 ^ 32 }
        requires blank { LeavesRow does }
        ensures { (row : SomeRow) → Turn 2 self.old (act slice_set does place row self.old.stack self.old.used self.old.rows.now) result self.new }
    {
        match does.ok_or(Refusal::MisplacedTag(place))? {
            Move::Enter(mode) => {
                self.mode = mode;
                Ok(())
            }
            Move::Leave => {
                self.leave();
                Ok(())
            }
            Move::Nest(shape) => self.nest(shape, place),
            Move::Unnest => self.unnest(place),
            Move::Fault => self.fault(place),
            Move::Emit(_) | Move::Word | Move::Name => unreachable!(),
        }
    }

    // Does what a tag at a place does, with the row of the run before it.
    #[inline(always)]
    fn act(&mut self, does: Option<Move>, place: usize, row: Row) -> Result<(), Refusal>
        requires room { self.old.steps + 2 < 2 ^ 32 }
        ensures { Turn 2 self.old (act slice_set does place row self.old.stack self.old.used self.old.rows.now) result self.new }
    {
        match does.ok_or(Refusal::MisplacedTag(place))? {
            Move::Emit(mode) => {
                self.emit(row);
                self.mode = mode;
                Ok(())
            }
            Move::Word => {
                self.emit(row);
                self.leave();
                Ok(())
            }
            Move::Name => self.name(row, place),
            Move::Enter(_) | Move::Leave | Move::Nest(_) | Move::Unnest | Move::Fault => {
                self.pass(does, place)
            }
        }
    }

    // One run and the tag behind it.
    pub(crate) fn step(&mut self, run: Run<'_>, place: usize, tag: Tag) -> Result<(), Refusal>
        requires { self.old.steps + 2 < 2 ^ 32 }
        ensures { Turn 2 self.old (step slice_set (state self.old) run.entry.place run.entry.bytes.now place tag) result self.new }
    {
        let does = move_at(self.mode, tag);
        if must_be_blank(self.mode, tag) {
            blank_run(run)?;
            return self.pass(does, place);
        }
        let row = run_row(self.mode, tag, run)?;
        self.act(does, place, row)
    }

    // How many rows the message has so far, also past the end of the lent ones.
    pub(crate) fn used(&self) -> usize
        ensures { result ≡ self.now.used }
    {
        self.used
    }

    // The end of a message of so many bytes, behind a run.
    pub(crate) fn finish(&self, run: Run<'_>, len: usize) -> Result<(), Refusal>
        ensures { finish slice_set (state self.now) run.entry.place run.entry.bytes.now len ≡ outcome result (state self.now) }
    {
        if self.mode != Mode::Finished {
            return Err(Refusal::Unfinished(len));
        }
        blank_run(run)?;
        Ok(())
    }
}
