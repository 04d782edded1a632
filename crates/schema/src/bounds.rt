// Bucket bounds.
ghost use Rattle.std.specs.Prelude.{◌≡◌, ◌^◌, ◌<◌, ◌≤◌, T, pos, ◌+ℤ◌, neg_ℤ};
ghost use Rattle.std.specs.Float.Ieee.{le};
ghost use Rattle.index.specs.Index.{quotient, remainder};
ghost use Rattle.schema.specs.Tables.{entry};
ghost use Rattle.schema.specs.Bounds.{bound, Largest};

use crate::kinds::Schema;
use crate::layout::Layout;
use crate::scale::{LEADING_DIGIT, scale};
use crate::tables::OctaveTable;
use crate::wide::WideBuckets;

impl OctaveTable {
    // An entry times 2^53. The exponent's field in its bits is 1022, and the 1 that is left of it is the leading digit.
    fn mantissa(self, place: usize) -> u64
        requires { place < 2 ^ self.schema }
        ensures value { result ≡ entry self.schema place }
        ensures low { 2 ^ 52 ≤ result }
        ensures high { result < 2 ^ 53 }
    {
        self.entries()[place].to_bits() - (1021 << 52)
    }

    // The octave of an index and its place there: the index divided by the number of buckets, and the rest.
    // A pair, since the one caller takes it apart at once. `as`, since no `From` leads from `i32` to `usize`.
    fn octave(self, index: i32) -> (i32, usize)
        ensures octave { result.0 ≡ quotient (2 ^ self.schema) index }
        ensures place { result.1 ≡ remainder (2 ^ self.schema) index }
    {
        let buckets = self.buckets();
        (
            index.div_euclid(buckets),
            index.rem_euclid(buckets) as usize,
        )
    }

    // The bound of an index: an entry of the table, in the index's octave.
    fn bound(self, index: i32) -> f64
        ensures { result ≡ bound (pos self.schema) index }
    {
        let (octave, place) = self.octave(index);
        scale(self.mantissa(place), i64::from(octave) + 1)
    }
}

impl WideBuckets {
    // The bound of an index: a power of two.
    fn bound(self, index: i32) -> f64
        ensures { result ≡ bound (neg_ℤ (pos self.doublings)) index }
    {
        let power = i64::from(index) * i64::from(self.octaves());
        scale(LEADING_DIGIT, power + 1)
    }
}

// The bound of an index: the largest double that is at most the exact bound, infinity past 2^1024.
pub fn positive_upper_bound(schema: Schema, index: i32) -> f64
    ensures value { result ≡ bound schema.value index }
    ensures largest { Largest schema.value index result }
    ensures rises { T (le result (bound schema.value (index +ℤ pos 1))) }
{
    match schema.layout() {
        Layout::Table(table) => table.bound(index),
        Layout::Powers(buckets) => buckets.bound(index),
    }
}
