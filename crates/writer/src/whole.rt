// A held message in its canonical form.
ghost use Rattle.std.specs.Prelude.{◌≡◌, ◌-◌, ◌^◌, min, length};
ghost use Rattle.wire.specs.Trees.{Message, message_rows};
ghost use Rattle.texts.specs.Pages.{Writes};
ghost use Rattle.canonical.specs.Forms.{canonical};

use crate::part::write_part;
use crate::pen::Pen;
use held::held::Held;

// How long the canonical form is; where no machine can count so far, as far as one can.
pub fn canonical_len<M: Held>(held: &M) -> usize
    ensures { (m : Message) → M.Held.said held.now ≡ message_rows m → result ≡ min (length (canonical m)) (2 ^ 64 - 1) }
{
    let mut page = [0; 0];
    let mut pen = Pen {
        page: &mut page,
        place: 0,
    };
    let _ = write_part(held, 0, &mut pen);
    pen.place
}

// Writes the canonical form to the front of a page, and gives its length; none, and nothing is written,
// where the page is too short.
pub fn write_canonical<M: Held>(held: &M, page: &mut [u8]) -> Option<usize>
    ensures { (m : Message) → M.Held.said held.now ≡ message_rows m → Writes (canonical m) page.old page.new result }
{
    let len = canonical_len(held);
    if len > page.len() {
        return None;
    }
    let mut pen = Pen { page, place: 0 };
    let _ = write_part(held, 0, &mut pen);
    Some(len)
}
