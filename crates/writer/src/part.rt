// Writing a row with all its parts.
ghost use Rattle.std.specs.Prelude.{◌≡◌, ◌+◌, ◌<◌, ◌≤◌, List, ◌++◌, length, drop, slice_index_or};
ghost use Rattle.wire.specs.Trees.{Content};
ghost use Rattle.held.specs.Told.{no_row, facts_of};
ghost use Rattle.writer.specs.Pages.{Put};
ghost use Rattle.writer.specs.Tables.{spelling_of};
ghost use Rattle.writer.specs.Nodes.{Node, node_rows, node_form, opening_of, Counts};

use crate::marks::{after, back, before, close, front};
use crate::pen::{Double, Int, Pen};
use crate::put::{Escaped, Plain, put_base64, put_text};
use held::held::{Facts, Held};
use wire::kind::Kind;

// The text of a row. That the facts are those of the row at `i` is asked of the two functions that take both: as a
// fact of a struct of theirs it would cite the members of its bound.
fn put_spelling<M: Held>(held: &M, i: usize, row: Facts, pen: &mut Pen<'_>)
    requires { row ≡ facts_of (slice_index_or (M.Held.said held.now) i no_row) }
    ensures { Put pen.old (spelling_of (slice_index_or (M.Held.said held.now) i no_row) row.kind) pen.new }
{
    match row.kind {
        Kind::Call | Kind::Date => put_text::<Plain>(pen, held.text(i)),
        Kind::String | Kind::Member => put_text::<Escaped>(pen, held.text(i)),
        Kind::Base64 => put_base64(pen, held.text(i)),
        Kind::Int | Kind::Boolean => pen.write(&Int(row.number)),
        Kind::Double => pen.write(&Double {
            number: row.number,
            scale: row.scale,
        }),
        Kind::Blank | Kind::Response | Kind::Fault | Kind::Struct | Kind::Array => pen.put(b""),
    }
}

// What stands in front of a row's parts.
fn open<M: Held>(held: &M, i: usize, row: Facts, pen: &mut Pen<'_>)
    requires { row ≡ facts_of (slice_index_or (M.Held.said held.now) i no_row) }
    ensures { Put pen.old (opening_of (slice_index_or (M.Held.said held.now) i no_row)) pen.new }
{
    pen.put(front(row.kind));
    put_spelling(held, i, row, pen);
    pen.put(back(row.kind, row.count));
}

// A row and all its parts, and the row behind them. At most sixteen structs and arrays are open together in a
// message, which bounds the depth.
pub(crate) fn write_part<M: Held>(held: &M, i: usize, pen: &mut Pen<'_>) -> usize
    ensures rows { i ≤ result }
    ensures same_page { pen.new.page.ghost_name ≡ pen.old.page.ghost_name }
    ensures part { (n : Node) (rest : List Content) → Counts n → drop i (M.Held.said held.now) ≡ node_rows n ++ rest → (result ≡ i + length (node_rows n)) × Put pen.old (node_form n) pen.new }
{
    let Some(row) = held.row(i) else {
        return i;
    };
    open(held, i, row, pen);
    let mut next = i + 1;
    // A part's length shows only when it is written.
    for _ in 0..row.count {
        pen.put(before(row.kind));
        next = write_part(held, next, pen);
        pen.put(after(row.kind));
    }
    pen.put(close(row.kind, row.count));
    next
}
