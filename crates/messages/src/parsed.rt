// A message and the rows that were read from it.
ghost use Rattle.std.specs.Prelude.{◌≤◌, length};

use wire::row::Row;

// No more rows than the highest level has.
#[derive(Clone, Copy)]
pub(crate) struct Parsed<'m, 'r> {
    pub message: &'m [u8],
    pub rows: &'r [Row],
    ghost few: { length rows.now ≤ 4096 },
}
