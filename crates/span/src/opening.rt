// Opening a reader: spans and deltas of any origin are checked first.
ghost use Rattle.std.specs.Prelude.{◌≡◌, ◌^◌, ◌<◌, pos, negsuc, ◌≤ℤ◌};
ghost use Rattle.index.specs.Index.{in_index_range};
ghost use Rattle.span.specs.Reading.{lengths, lengths_refusal, lone, lone_or_refusal, countable, counts_refusal};
ghost use Rattle.span.specs.Readers.{fault_of, Checked, Opened};

use crate::faults::SpanFault;
use crate::reader::{BucketReader, NativeHistogramBuckets};

impl<'a> NativeHistogramBuckets<'a> {
    // A reader of the pairs, or why there is none.
    pub fn read(&self) -> Result<BucketReader<'a>, SpanFault>
        ensures { Opened self.now.spans.now self.now.deltas.now result }
    {
        check_lengths(self.spans, self.deltas)?;
        check_spans(self.spans)?;
        check_counts(self.deltas)?;
        Ok(BucketReader {
            spans: self.spans,
            deltas: self.deltas,
            index: 0,
            left: 0,
            count: 0,
        })
    }
}

// Whether the lengths sum to the number of deltas.
fn check_lengths(spans: &[(i32, u32)], deltas: &[i64]) -> Result<(), SpanFault>
    ensures { fault_of result ≡ lengths_refusal spans.now deltas.now }
{
    // `as`, since no `From` leads from `usize` to `u128`, and the length of a slice fits 63 bits.
    if sum_of_lengths(spans) == deltas.len() as u128 {
        Ok(())
    } else {
        Err(SpanFault::LengthSum(deltas.len() as i64))
    }
}

// The sum of the lengths, which 64 bits may not hold.
fn sum_of_lengths(spans: &[(i32, u32)]) -> u128
    ensures { result ≡ lengths spans.now }
{
    spans.iter().map(|span| u128::from(span.1)).sum()
}

// Whether every span lists something, goes on and stays in range.
fn check_spans(spans: &[(i32, u32)]) -> Result<(), SpanFault>
    ensures { fault_of result ≡ lone_or_refusal spans.now }
{
    if is_lone(spans) {
        return Ok(());
    }
    let mut next = 0;
    for (number, span) in spans.iter().enumerate() {
        next = check_span(number, next, *span)?;
    }
    Ok(())
}

// Whether the spans are (0, 0) alone, which lists nothing.
fn is_lone(spans: &[(i32, u32)]) -> bool
    ensures { result ≡ lone spans.now }
{
    spans == [(0, 0)].as_slice()
}

// The index after a span, whose offset counts from the index `next`.
fn check_span(number: usize, next: i64, span: (i32, u32)) -> Result<i64, SpanFault>
    requires place { number < 2 ^ 63 }
    requires low { negsuc 274943 ≤ℤ next }
    requires high { next ≤ℤ pos 262146 }
    ensures { Checked number next span result }
{
    // `as`, since no slice is so long that the number would not fit.
    let place = number as i64;
    if span.1 == 0 {
        return Err(SpanFault::EmptySpan(place));
    }
    if number > 0 && span.0 < 0 {
        return Err(SpanFault::BackwardSpan(place));
    }
    let first = next + i64::from(span.0);
    let after = first + i64::from(span.1);
    if !in_range(first) || !in_range(after - 1) {
        return Err(SpanFault::OutOfRange(place));
    }
    Ok(after)
}

// Whether some schema gives this index to some number.
fn in_range(index: i64) -> bool
    ensures { result ≡ in_index_range index }
{
    i32::try_from(index).is_ok_and(index::in_index_range)
}

// Whether every count is from 0 to 2^63 - 1. `as`, since no slice is so long that the number would not fit.
fn check_counts(deltas: &[i64]) -> Result<(), SpanFault>
    ensures { fault_of result ≡ counts_refusal 0 (pos 0) deltas.now }
{
    let mut count = 0i128;
    for (number, delta) in deltas.iter().enumerate() {
        count += i128::from(*delta);
        if !is_count(count) {
            return Err(SpanFault::CountRange(number as i64));
        }
    }
    Ok(())
}

// Whether the number is a count that deltas may lead to: 0 to 2^63 - 1.
fn is_count(number: i128) -> bool
    ensures { result ≡ countable number }
{
    (0..=i128::from(i64::MAX)).contains(&number)
}
