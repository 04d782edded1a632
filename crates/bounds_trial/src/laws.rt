// What is checked of a schema: of a number, of a bound and of the schema's ends. Functions, apart from the methods of
// `Checks`, which only counts.
use crate::checks::{Checks, Law, Place};
use crate::numbers::power_of_two;
use double::frexp;
use index::{HIGHEST_INDEX, LOWEST_INDEX, coarser_index, in_index_range};
use schema::{Schema, bucket_index, positive_upper_bound};

// Whether the number is above the bound before, and at most the index's own.
fn in_bucket(schema: Schema, value: f64, index: i32) -> bool {
    positive_upper_bound(schema, index.wrapping_sub(1)) < value
        && value <= positive_upper_bound(schema, index)
}

// Whether fraction and exponent are those of the number, which is above zero.
fn well_parted(value: f64) -> bool {
    let (fraction, exponent) = frexp(value);
    if value.is_infinite() {
        return fraction == 0.0 && exponent == 0;
    }
    let rebuilt = fraction * 2.0 * power_of_two(exponent.wrapping_sub(1));
    (0.5..1.0).contains(&fraction) && rebuilt == value && frexp(-value) == (fraction, exponent)
}

// Checks a number above zero.
pub fn number(checks: &mut Checks, value: f64) {
    let schema = checks.schema;
    let found = bucket_index(schema, value);
    let place = Place {
        value,
        index: found,
    };
    let Some(index) = found else {
        checks.see(Law::Bucket, place, false);
        return;
    };
    checks.see(Law::Bucket, place, in_bucket(schema, value, index));
    checks.see(Law::Sign, place, bucket_index(schema, -value) == found);
    checks.see(Law::Parts, place, well_parted(value));
    if let Some(coarser) = schema.coarser() {
        let half = Some(coarser_index(index));
        checks.see(Law::Halving, place, bucket_index(coarser, value) == half);
    }
}

// The power of two that the bound of an index is, if it is one: by the sign of the schema's number, since the library's
// layouts are private to it.
fn power(schema: Schema, index: i32) -> Option<i32> {
    let value = schema.value();
    if value < 0 {
        return Some(index.wrapping_mul(1 << value.unsigned_abs().min(4)));
    }
    let places = 1 << value.unsigned_abs().min(8);
    (index % places == 0).then(|| index / places)
}

// The bound that is 2^exponent: the largest double where 2^1024 is meant.
fn power_bound(exponent: i32) -> f64 {
    if exponent == 1024 {
        f64::MAX
    } else {
        power_of_two(exponent)
    }
}

// Checks the bound of an index alone.
fn alone(checks: &mut Checks, index: i32, bound: f64) {
    let schema = checks.schema;
    let place = Place::new(bound, index);
    if let Some(exponent) = power(schema, index) {
        checks.see(Law::Power, place, bound == power_bound(exponent));
    }
    if index % 2 == 0
        && let Some(coarser) = schema.coarser()
    {
        let shared = positive_upper_bound(coarser, index / 2);
        checks.see(Law::Shared, place, shared == bound);
    }
}

// Checks that a number has the index.
fn has_index(checks: &mut Checks, law: Law, value: f64, index: i32) {
    let holds = bucket_index(checks.schema, value) == Some(index);
    checks.see(law, Place::new(value, index), holds);
}

// Checks the bound of an index, and the doubles next to it.
pub fn boundary(checks: &mut Checks, index: i32) {
    let schema = checks.schema;
    let next = index.wrapping_add(1);
    let before = positive_upper_bound(schema, index.wrapping_sub(1));
    let bound = positive_upper_bound(schema, index);
    let after = positive_upper_bound(schema, next);
    let below = bound.next_down();
    let above = bound.next_up();
    let rises = before <= bound && bound <= after;
    checks.see(Law::Rising, Place::new(bound, index), rises);
    alone(checks, index, bound);
    if before < bound {
        has_index(checks, Law::Bound, bound, index);
    }
    if bound < after {
        has_index(checks, Law::Above, above, next);
    }
    if before < below {
        has_index(checks, Law::Below, below, index);
    }
    for value in [below, bound, above] {
        if value > 0.0 {
            number(checks, value);
        }
    }
}

// Checks the ends of a schema's range of indices, and of all schemas'.
pub fn ends(checks: &mut Checks) {
    let schema = checks.schema;
    let (low, high) = schema.index_range();
    let least = power_of_two(-1074);
    has_index(checks, Law::Ends, least, low);
    has_index(checks, Law::Ends, f64::MAX, high.wrapping_sub(1));
    has_index(checks, Law::Ends, f64::INFINITY, high);
    has_index(checks, Law::Ends, -f64::INFINITY, high);
    let lowest = Place::new(least, low);
    let highest = Place::new(f64::INFINITY, high);
    checks.see(Law::Ends, lowest, in_index_range(low));
    checks.see(Law::Ends, highest, in_index_range(high));
    for (index, end) in [(i32::MIN, 0.0), (i32::MAX, f64::INFINITY)] {
        let bound = positive_upper_bound(schema, index);
        checks.see(Law::Ends, Place::new(bound, index), bound == end);
    }
    if let Some(coarser) = schema.coarser() {
        let halves = (coarser_index(low), coarser_index(high));
        checks.see(Law::Ends, lowest, coarser.index_range() == halves);
    }
    if schema.value() == 8 {
        checks.see(Law::Ends, lowest, low == LOWEST_INDEX);
        checks.see(Law::Ends, highest, high == HIGHEST_INDEX);
    }
}

// Checks that zero and NaN have no index.
pub fn nothing(checks: &mut Checks) {
    for value in [0.0, -0.0, f64::NAN, -f64::NAN] {
        let index = bucket_index(checks.schema, value);
        let place = Place { value, index };
        checks.see(Law::Nothing, place, index.is_none());
        checks.see(Law::Nothing, place, frexp(value) == (0.0, 0));
    }
}
