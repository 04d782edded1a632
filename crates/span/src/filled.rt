// The pairs of a store with short gaps filled, one after another.
ghost use Rattle.std.specs.Prelude.{◌≡◌};
ghost use Rattle.std.specs.Iterator.{YieldsFirst, item_count};
ghost use Rattle.span.specs.Spans.{filled};

use std::marker::Model;
use store::BucketStore;

// The longest gap that is filled.
const SHORT_GAP: i32 = 2;

// Seen as the pairs still to come.
#[derive(Drop)]
pub struct Filled<'a, S: BucketStore> {
    store: &'a S,
    // the position of the next pair
    position: usize,
    // the index after the one yielded last
    next: i32,
}

impl<'a, S: BucketStore> Model for Filled<'a, S> {
    ghost use Rattle.std.specs.Prelude.{pos, negsuc, ◌≤ℤ◌};
    ghost use Rattle.store.specs.Pairs.{Pairs};
    ghost use Rattle.span.specs.Spans.{ahead};

    ghost Value = { Pairs };

    ghost view = { λ f. ahead (S.BucketStore.pairs f.store.now) f.position f.next };

    ghost invariant = { λ f. record { low : negsuc 274943 ≤ℤ f.next; high : f.next ≤ℤ pos 262146 } };
}

impl<'a, S: BucketStore> Filled<'a, S> {
    pub fn new(store: &'a S) -> Self
        ensures { result ≡ filled (S.BucketStore.pairs store.now) }
    {
        Filled {
            store,
            position: 0,
            next: store.pair(0).map_or(0, |pair| pair.0),
        }
    }
}

impl<S: BucketStore> Iterator for Filled<'_, S> {
    type Item = (i32, u64);

    ghost next_gives = { YieldsFirst (λ pairs. pairs) };

    ghost remaining = { item_count (λ pairs. pairs) };

    fn next(&mut self) -> Option<(i32, u64)> {
        let (index, count) = self.store.pair(self.position)?;
        let gap = index - self.next;
        // two comparisons, since each turns away gaps of its own: none, and the long ones
        if 0 < gap && gap <= SHORT_GAP {
            let filler = (self.next, 0);
            self.next += 1;
            return Some(filler);
        }
        self.position += 1;
        self.next = index + 1;
        Some((index, count))
    }
}
