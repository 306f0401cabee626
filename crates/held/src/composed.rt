// A message that was composed: rows, and their texts in ink.
ghost use Rattle.std.specs.Prelude.{[]};
ghost use Rattle.held.specs.Formed.{Formed};
ghost use Rattle.held.specs.Stored.{sayings};

use wire::row::Row;

#[derive(Clone, Copy)]
pub struct Composed<'i, 'r> {
    pub ink: &'i [u8],
    pub rows: &'r [Row],
    ghost formed: { Formed (sayings [] ink.now rows.now) },
}
