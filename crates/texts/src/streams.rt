// Iterators of bytes that tell what is still to come.
ghost use Rattle.std.specs.Prelude.{ℕ, List};
ghost use Rattle.std.specs.Iterator.Adapters.{copied_source};
ghost use Rattle.std.specs.Slice.Iter.{iter_rest, iter_steps};
ghost use Rattle.texts.specs.Streams.{StreamLaws, copied_stops, copied_goes};

use std::iter::Copied;
use std::slice::Iter;

// Such an iterator may be asked at any time, and ends: callers need not ask for either.
pub trait Stream: Iterator<Item = u8> {
    ghost left: { Self → List ℕ };

    ghost laws: { StreamLaws Self.Iterator.can_next Self.Iterator.next_gives Self.Iterator.remaining left };
}

impl Stream for Copied<Iter<'_, u8>> {
    ghost left = { λ s. iter_rest (copied_source s) };

    ghost laws = { record {
      askable = λ s. tt;
      ends = λ s. tt;
      stops = λ s t h. copied_stops iter_steps iter_rest (λ a b k. k.0) (λ a x b k. k) (copied_source s) (copied_source t) h.0 h.1 h.2;
      goes = λ s b t h. copied_goes iter_steps iter_rest (λ a b k. k.0) (λ a x b k. k) (copied_source s) b (copied_source t) h.0 h.1 h.2;
    } };
}
