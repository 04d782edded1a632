// A store of buckets: a list of pairs (index, count), lowest index first.
#![tactic(auto)]

ghost use Rattle.std.specs.Prelude.{◌≡◌, T, [], length};
ghost use Rattle.store.specs.Pairs.{Pairs, Means, ranged, pair_at, lowest, without_lowest, halved_pairs};
ghost use Rattle.store.specs.Stores.{Room, Roomy, Added};

mod faults;
pub mod laws;

pub use faults::StoreFault;

pub trait BucketStore {
    // What it lists.
    ghost pairs: { Self → Pairs };

    // For which indices it has room.
    ghost room: { Self → Room };

    // The number of pairs.
    fn size(&self) -> usize
        ensures { result ≡ length (pairs self.now) };

    // The pair at a position, counted from 0, if there is one.
    fn pair(&self, position: usize) -> Option<(i32, u64)>
        ensures { result ≡ pair_at (pairs self.now) position };

    // Whether there is room for the index.
    fn has_room(&self, index: i32) -> bool
        ensures { result ≡ room self.now index };

    // Raises the index's count by one; lists it with count 1 if it was not listed.
    fn add(&mut self, index: i32) -> Result<(), StoreFault>
        ensures { Added pairs room index result self.old self.new };

    // Removes and answers the pair of the lowest index, if there is one.
    fn take_lowest(&mut self) -> Option<(i32, u64)>
        ensures answer { result ≡ lowest (pairs self.old) }
        ensures rest { pairs self.new ≡ without_lowest (pairs self.old) };

    // Halves each index, rounded up, and joins counts that meet.
    fn halve(&mut self)
        ensures { pairs self.new ≡ halved_pairs (pairs self.old) };

    // Lists nothing any more.
    fn clear(&mut self)
        ensures { pairs self.new ≡ [] };

    // Indices rise, counts are at least 1, and the total is below 2^64.
    ghost means: { (s : Self) → Means (pairs s) };

    // Every listed index is one that some schema gives to some number.
    ghost in_range: { (s : Self) → T (ranged (pairs s)) };

    // A listed index has room, and with nothing listed so has every index in range.
    ghost roomy: { (s : Self) → Roomy (pairs s) (room s) };
}
