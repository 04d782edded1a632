// Bucket indices: the range that a store accepts, and an index one schema coarser.
#![tactic(auto)]

ghost use Rattle.std.specs.Prelude.{◌≡◌};
ghost use Rattle.index.specs.Index.{in_index_range, halved, Halves};

// The lowest index of all schemas: that of 2^-1074 at schema 8.
pub const LOWEST_INDEX: i32 = -274_944;

// The highest index of all schemas: that of infinity at schema 8.
pub const HIGHEST_INDEX: i32 = 262_145;

// Whether some schema gives this index to some number.
pub fn in_index_range(index: i32) -> bool
    ensures { result ≡ in_index_range index }
{
    (LOWEST_INDEX..=HIGHEST_INDEX).contains(&index)
}

// The index one schema coarser: half of it, rounded up. Signed numbers have no `div_ceil`.
pub fn coarser_index(index: i32) -> i32
    ensures value { result ≡ halved index }
    ensures halves { Halves index result }
{
    let toward_zero = index / 2;
    if index > 0 && index % 2 == 1 {
        toward_zero + 1
    } else {
        toward_zero
    }
}
