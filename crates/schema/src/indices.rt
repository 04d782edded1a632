// Bucket indices.
ghost use Rattle.std.specs.Prelude.{◌≡◌, not, T, pos, neg_ℤ, negsuc, ◌≤ℤ◌, IfSome, MatchOption};
ghost use Rattle.double.specs.Double.{finite_nonzero};
ghost use Rattle.schema.specs.Bounds.{table_index, finite_index, index_of, nonzero, OnlyBucket};
ghost use Rattle.schema.specs.Laws.{Ranged};

use crate::kinds::Schema;
use crate::layout::Layout;
use crate::tables::OctaveTable;
use crate::wide::WideBuckets;
use double::frexp;

impl OctaveTable {
    // The index of v: its octave, and the bucket of its fraction there, by a binary search of the table. The search is
    // written out, since with `partition_point` readings whose order recurs take two to three times as long.
    // `as`, since no `From` leads from `usize` to `i32`; a place is at most 256.
    fn index(self, v: f64) -> i32
        requires { T (finite_nonzero v) }
        ensures value { result ≡ table_index self.schema v }
        ensures range { (negsuc 275199 ≤ℤ result) × (result ≤ℤ pos 262144) }
    {
        let (fraction, exponent) = frexp(v);
        let bounds = self.entries();
        let mut low = 0;
        let mut high = bounds.len();
        while low < high {
            let middle = low + (high - low) / 2;
            if bounds[middle] < fraction {
                low = middle + 1;
            } else {
                high = middle;
            }
        }
        (exponent - 1) * self.buckets() + low as i32
    }
}

impl WideBuckets {
    // The index of v: schema 0's, divided and rounded up. Signed numbers have no `div_ceil`.
    fn index(self, v: f64) -> i32
        requires { T (finite_nonzero v) }
        ensures value { result ≡ finite_index (neg_ℤ (pos self.doublings)) v }
        ensures range { (negsuc 275199 ≤ℤ result) × (result ≤ℤ pos 262159) }
    {
        let width = self.octaves();
        let at_zero = OctaveTable { schema: 0 }.index(v);
        (at_zero + (width - 1)).div_euclid(width)
    }
}

// The index of a finite number other than zero. The ends of its range are written out, since sums of it are bounded by
// them; a table's are narrower. A type for such numbers would be made at each of the four calls, and
// taken apart in each layout.
pub(crate) fn finite_index(schema: Schema, v: f64) -> i32
    requires { T (finite_nonzero v) }
    ensures value { result ≡ finite_index schema.value v }
    ensures range { (negsuc 275199 ≤ℤ result) × (result ≤ℤ pos 262159) }
{
    match schema.layout() {
        Layout::Table(table) => table.index(v),
        Layout::Powers(buckets) => buckets.index(v),
    }
}

// The index of the bucket that v lies in: above the bound before, at most its own. None for zero and NaN.
pub fn bucket_index(schema: Schema, v: f64) -> Option<i32>
    ensures value { result ≡ index_of schema.value v }
    ensures bucket { MatchOption result (T (not (nonzero v))) (λ i. T (nonzero v) × OnlyBucket schema.value v i) }
    ensures range { IfSome result (λ i. Ranged schema.value i) }
{
    if v.is_nan() || v == 0.0 {
        return None;
    }
    if v.is_infinite() {
        return Some(finite_index(schema, f64::MAX) + 1);
    }
    Some(finite_index(schema, v))
}
