// A row: a table of 320 pairs (index, count), lowest index first, that lists the first `size` of them.
#![tactic(auto)]

ghost use Rattle.std.specs.Prelude.{◌≡◌, ◌^◌, ◌<◌, ◌≤◌, T, length, take};
ghost use Rattle.store.specs.Pairs.{rising, counted, ranged, total as all_counts};

mod adding;
mod as_store;
mod halving;
mod search;
#[cfg(test)]
mod tests;

// The most pairs that a row lists.
pub const CAPACITY: usize = 320;

#[derive(Clone, Copy)]
pub struct Row {
    // an array with a size, since a row is `Copy`, and `ArrayVec`, the vector of fixed capacity, is not
    pairs: [(i32, u64); CAPACITY],
    size: usize,
    // the sum of the listed counts
    total: u64,
    ghost whole: { length pairs ≡ 320 },
    ghost fits: { size ≤ 320 },
    ghost rises: { T (rising (take size pairs)) },
    ghost counts: { T (counted (take size pairs)) },
    ghost bounded: { all_counts (take size pairs) < 2 ^ 64 },
    ghost ranges: { T (ranged (take size pairs)) },
    ghost sums: { total ≡ all_counts (take size pairs) },
}
