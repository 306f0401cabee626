// A message as it was read: its bytes, and rows over them. What was composed has ink in place of bytes, and is another
// make: its ghost fact is another.
ghost use Rattle.std.specs.Prelude.{[]};
ghost use Rattle.held.specs.Formed.{Formed};
ghost use Rattle.held.specs.Stored.{sayings};

use wire::row::Row;

#[derive(Clone, Copy)]
pub struct ReadMessage<'b, 'r> {
    pub bytes: &'b [u8],
    pub rows: &'r [Row],
    ghost formed: { Formed (sayings bytes.now [] rows.now) },
}
