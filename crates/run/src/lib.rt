// A run: a bucket store of 512 counters for consecutive indices.
#![tactic(auto)]

ghost use Rattle.std.specs.Prelude.{◌≡◌, ℕ, ◌+◌, ◌-◌, ◌^◌, ◌<◌, ◌≤◌, length};
ghost use Rattle.store.specs.Pairs.{total as total_of};
ghost use Rattle.run.specs.Window.{counter, listing};

mod bucket_store;
mod places;
#[cfg(test)]
mod tests;

use places::Window;

// How many counters a run has.
const PLACES: usize = 512;

// The counter of a position stands at the place of its remainder by 512, so the window moves without
// moving a counter. Positions are indices counted from the lowest index of all schemas.
#[derive(Clone, Copy)]
pub struct Run {
    counters: [u64; PLACES],
    // from the position of the lowest listed index to that of the highest
    window: Window,
    // how many indices are listed
    size: usize,
    // the sum of the counters
    total: u64,
    // the counters at both ends of the window are used
    ghost low: { 0 < window.span → 0 < counter counters window.first },
    ghost high: { 0 < window.span → 0 < counter counters (window.first + window.span - 1) },
    // those outside it are not
    ghost unused: { (k : ℕ) → window.first + window.span ≤ k → k < window.first + 512 → counter counters k ≡ 0 },
    ghost sized: { size ≡ length (listing (counter counters) window.first window.span) },
    ghost summed: { total ≡ total_of (listing (counter counters) window.first window.span) },
    ghost bounded: { total < 2 ^ 64 },
}
