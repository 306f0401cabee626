// Rows of members, kept in an order.
ghost use Rattle.std.specs.Prelude.{◌≡◌, ℕ, ◌<◌, ◌≤◌, List, [], length, take};
ghost use Rattle.std.specs.List.{insert};

use std::marker::Model;

// An array with its length, since no memory is asked for.
#[derive(Drop)]
pub(crate) struct Sorted {
    places: [u16; 4096],
    len: usize,
}

// Clauses see the rows that are kept.
impl Model for Sorted {
    ghost Value = { List ℕ };

    ghost view = { λ sorted. take sorted.len sorted.places };

    ghost invariant = { λ sorted. sorted.len ≤ 4096 };
}

impl Sorted {
    pub(crate) fn new() -> Sorted
        ensures { result ≡ [] }
    {
        Sorted {
            places: [0; 4096],
            len: 0,
        }
    }

    pub(crate) fn clear(&mut self)
        ensures { self.new ≡ [] }
    {
        self.len = 0;
    }

    pub(crate) fn as_slice(&self) -> &[u16]
        ensures { result.now ≡ self.now }
    {
        let len = self.len;
        &self.places[..len]
    }

    // Keeps a row before the one at a place.
    pub(crate) fn insert(&mut self, place: usize, row: u16)
        requires { (place ≤ length self.old) × (length self.old < 4096) }
        ensures { self.new ≡ insert self.old place row }
    {
        let len = self.len;
        self.places.copy_within(place..len, place + 1);
        self.places[place] = row;
        self.len = len + 1;
    }
}
