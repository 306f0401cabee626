// Member names that come twice in a struct.
ghost use Rattle.std.specs.Prelude.{◌≡◌, ℕ, ◌+◌, ◌<◌, ◌≤◌, map, length, slice_index_or};
ghost use Rattle.std.specs.Cmp.Lexicographic.{slice_cmp};
ghost use Rattle.std.specs.Ordering.{nat_cmp};
ghost use Rattle.std.specs.List.{common_prefix_len};
ghost use Rattle.wire.specs.Rows.{blank_row};
ghost use Rattle.characters.specs.Decoding.{decoded};
ghost use Rattle.reader.specs.Contents.{content_of, stored_in};
ghost use Rattle.messages.specs.Holding.{part_at, counts_of};
ghost use Rattle.messages.specs.Order.{same_plain};
ghost use Rattle.messages.specs.Sorted.{Ascends, IsPlaceOf, ComesIn};
ghost use Rattle.messages.specs.Repeats.{RepeatAt, Least, StructsHold, earlier_of};

use crate::parsed::Parsed;
use crate::sorted::Sorted;
use characters::Characters;
use std::cmp::Ordering;
use wire::kind::Kind;

// How many bytes two names share at the front that stand for themselves.
fn shared_front(a: &[u8], b: &[u8]) -> usize
    ensures value { result ≡ common_prefix_len same_plain a.now b.now }
    ensures within { (result ≤ length a.now) × (result ≤ length b.now) }
{
    a.iter()
        .zip(b)
        .take_while(|(x, y)| x == y && **x != b'&' && **x != b'\r')
        .count()
}

// How two names stand to each other as read. What they share at the front need not be read.
fn name_order(a: &[u8], b: &[u8]) -> Ordering
    ensures { result ≡ slice_cmp nat_cmp (decoded a.now) (decoded b.now) }
{
    let shared = shared_front(a, b);
    Characters::new(&a[shared..]).cmp(Characters::new(&b[shared..]))
}

// The earlier of two rows, where there are any; `min` of two options would take nothing for the least.
fn earlier(a: Option<usize>, b: Option<usize>) -> Option<usize>
    ensures { result ≡ earlier_of a b }
{
    match (a, b) {
        (Some(i), Some(j)) => Some(i.min(j)),
        (Some(i), None) => Some(i),
        (None, found) => found,
    }
}

impl<'m, 'r> Parsed<'m, 'r> {
    // The stored name of the member at a row, if there is such a row.
    fn stored_name(self, row: u16) -> &'m [u8]
        ensures { result.now ≡ stored_in self.entry.message.now (slice_index_or self.entry.rows.now row blank_row) }
    {
        match self.rows.get(usize::from(row)) {
            Some(member) => member.text.cut(self.message),
            None => &[],
        }
    }

    // Where a name stands among the sorted rows, or else where it belongs.
    fn seek(self, sorted: &[u16], name: &[u8]) -> Result<usize, usize>
        requires { Ascends self.message.now self.rows.now sorted.now }
        ensures { IsPlaceOf self.entry.message.now self.entry.rows.now sorted.now (decoded name.now) result }
    {
        sorted.binary_search_by(|row| name_order(self.stored_name(*row), name))
    }

    // The same; while names rise, the last row is asked first, since a name that rises on comes behind it.
    fn seek_rising(self, sorted: &[u16], name: &[u8], rising: bool) -> Result<usize, usize>
        requires { Ascends self.message.now self.rows.now sorted.now }
        ensures { IsPlaceOf self.entry.message.now self.entry.rows.now sorted.now (decoded name.now) result }
    {
        match sorted.split_last() {
            Some((last, rest)) if rising => match name_order(self.stored_name(*last), name) {
                Ordering::Less => Err(sorted.len()),
                Ordering::Equal => Ok(rest.len()),
                Ordering::Greater => self.seek(rest, name),
            },
            _ => self.seek(sorted, name),
        }
    }

    // The first member of a struct whose name came before in it.
    fn repeat_in(self, at: usize, sorted: &mut Sorted) -> Option<usize>
        requires inside { at < length self.rows.now }
        requires held { (k : ℕ) → k < (slice_index_or self.rows.now at blank_row).count → part_at (counts_of self.rows.now) at k < length self.rows.now }
        ensures { ComesIn self.entry.message.now self.entry.rows.now at result }
    {
        sorted.clear();
        let mut member = at + 1;
        let mut rising = true;
        // A part's length shows only when it is passed, so the row is walked.
        for known in 0..self.rows[at].count {
            let name = self.rows[member].text.cut(self.message);
            match self.seek_rising(sorted.as_slice(), name, rising) {
                Ok(_) => return Some(member),
                Err(place) => {
                    rising &= place == known as usize;
                    sorted.insert(place, member as u16);
                }
            }
            member = self.past_part(member);
        }
        None
    }

    // The row of the first member, in the order of the message, whose name came before in its struct.
    pub(crate) fn first_repeat(self) -> Option<usize>
        requires { StructsHold self.rows.now }
        ensures { Least (RepeatAt (map (content_of self.entry.message.now) self.entry.rows.now)) result }
    {
        let mut sorted = Sorted::new();
        let mut first = None;
        for (at, row) in self.rows.iter().enumerate() {
            if row.kind == Kind::Struct {
                first = earlier(first, self.repeat_in(at, &mut sorted));
            }
        }
        first
    }
}
