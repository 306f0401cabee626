// The interface of held messages.
ghost use Rattle.std.specs.Prelude.{◌≡◌, ◌+◌, ◌^◌, ◌<◌, List, length, OnSome, slice_index_or};
ghost use Rattle.wire.specs.Trees.{Content};
ghost use Rattle.held.specs.Formed.{Formed};
ghost use Rattle.held.specs.Texts.{left};
ghost use Rattle.held.specs.Told.{no_row, TellsRow};

use crate::text::Text;
use wire::kind::Kind;

// A row but for its text: all four, as every row has them.
#[derive(Clone, Copy, Debug, PartialEq, Eq)]
pub struct Facts {
    pub kind: Kind,
    pub count: u32,
    pub number: i64,
    pub scale: u8,
}

// A message that can be asked for its rows and their texts. Asking changes nothing.
pub trait Held {
    // What its rows say.
    ghost said: { Self → List Content };

    // They form one message of the format.
    ghost formed: { (x : Self) → Formed (said x) };

    // How many rows it has.
    fn len(&self) -> usize
        ensures { result ≡ length (said self.now) };

    // A row, or none past the last.
    fn row(&self, i: usize) -> Option<Facts>
        ensures told { TellsRow (said self.now) i result }
        ensures next { OnSome result (i + 1 < 2 ^ 64) };

    // The text of a row, byte by byte.
    fn text(&self, i: usize) -> Text<'_>
        ensures { left result ≡ (slice_index_or (said self.now) i no_row).text };
}
