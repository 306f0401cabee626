// A pen that writes to a page from some place on. Its place moves behind all that it writes, also where the page
// does not reach so far; then what the page holds from the old place on is of no account.
ghost use Rattle.std.specs.Prelude.{◌≡◌, ℕ, List, length};
ghost use Rattle.numbers.specs.Ints.{int_spelling};
ghost use Rattle.numbers.specs.Doubles.{double_spelling};
ghost use Rattle.texts.specs.Pages.{Writes};
ghost use Rattle.writer.specs.Pages.{Put};

use numbers::doubles::{double_len, write_double};
use numbers::ints::{int_len, write_int};
use texts::pages::write_text;

#[derive(Drop)]
pub(crate) struct Pen<'p> {
    pub page: &'p mut [u8],
    pub place: usize,
}

impl<'p> Pen<'p> {
    // Writes a text, a number or the like.
    pub(crate) fn write<T: Written>(&mut self, text: &T)
        ensures { Put self.old (T.Written.spelled text.now) self.new }
    {
        let place = self.place;
        let page = &mut *self.page;
        if place <= page.len() {
            let _ = text.write(&mut page[place..]);
        }
        self.place = place.saturating_add(text.len());
    }

    // Writes bytes as they stand.
    pub(crate) fn put(&mut self, bytes: &[u8])
        ensures { Put self.old bytes.now self.new }
    {
        self.write(&Bytes(bytes));
    }
}

// What can be written to the front of a page.
pub(crate) trait Written {
    ghost spelled: { Self → List ℕ };

    fn len(&self) -> usize
        ensures { result ≡ length (spelled self.now) };

    fn write(&self, page: &mut [u8]) -> Option<usize>
        ensures { Writes (spelled self.now) page.old page.new result };
}

#[derive(Drop)]
struct Bytes<'b>(&'b [u8]);

impl<'b> Written for Bytes<'b> {
    ghost spelled = { λ bytes. bytes.0.now };

    fn len(&self) -> usize {
        self.0.len()
    }

    fn write(&self, page: &mut [u8]) -> Option<usize> {
        write_text(self.0, page)
    }
}

#[derive(Drop)]
pub(crate) struct Int(pub i64);

impl Written for Int {
    ghost spelled = { λ int. int_spelling int.0 };

    fn len(&self) -> usize {
        int_len(self.0)
    }

    fn write(&self, page: &mut [u8]) -> Option<usize> {
        write_int(self.0, page)
    }
}

#[derive(Drop)]
pub(crate) struct Double {
    pub number: i64,
    pub scale: u8,
}

impl Written for Double {
    ghost spelled = { λ double. double_spelling double.number double.scale };

    fn len(&self) -> usize {
        double_len(self.number, self.scale)
    }

    fn write(&self, page: &mut [u8]) -> Option<usize> {
        write_double(self.number, self.scale, page)
    }
}
