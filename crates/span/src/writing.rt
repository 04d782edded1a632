// Writing the pairs of a store as spans and deltas.
ghost use Rattle.std.specs.Prelude.{◌≡◌, length, None};
ghost use Rattle.span.specs.Writing.{Measured, Written, Laid, write_refusal};

use crate::faults::WriteFault;
use crate::filled::Filled;
use store::BucketStore;

// The largest count that a delta can lead to: 2^63 - 1. `as`, since a constant calls no function.
const LARGEST_COUNT: u64 = i64::MAX as u64;

// How many spans and how many deltas pairs are written as.
#[derive(Clone, Copy, PartialEq, Eq, Debug, Default)]
pub struct Lengths {
    pub spans: usize,
    pub deltas: usize,
}

// How many spans and deltas the pairs of the store are written as.
pub fn measure<S: BucketStore>(store: &S) -> Result<Lengths, WriteFault>
    ensures { Measured (S.BucketStore.pairs store.now) result }
{
    let mut lengths = Lengths::default();
    let mut end = None;
    for (index, count) in Filled::new(store) {
        if count > LARGEST_COUNT {
            return Err(WriteFault::LargeCount(index));
        }
        lengths.deltas += 1;
        if end != Some(index) {
            lengths.spans += 1;
        }
        end = Some(index + 1);
    }
    Ok(lengths)
}

// Writes the pairs of the store as spans and deltas to the start of two buffers, which are the caller's: the writer has
// no heap.
pub fn write<S: BucketStore>(
    store: &S,
    spans: &mut [(i32, u32)],
    deltas: &mut [i64],
) -> Result<Lengths, WriteFault>
    ensures { Written (S.BucketStore.pairs store.now) result spans.old deltas.old spans.new deltas.new }
{
    let needed = measure(store)?;
    if spans.len() < needed.spans {
        return Err(WriteFault::FewSpans);
    }
    if deltas.len() < needed.deltas {
        return Err(WriteFault::FewDeltas);
    }
    fill(store, spans, deltas);
    Ok(needed)
}

// Fills buffers that are long enough.
// It walks as `measure` does, which stops at a refusal: one walk over a closure would be longer than the two.
fn fill<S: BucketStore>(store: &S, spans: &mut [(i32, u32)], deltas: &mut [i64])
    requires { write_refusal (S.BucketStore.pairs store.now) (length spans.old) (length deltas.old) ≡ None }
    ensures { Laid (S.BucketStore.pairs store.now) spans.old deltas.old spans.new deltas.new }
{
    // Counted, since of elements written through a zipped `iter_mut` nothing could be promised.
    let mut written = Lengths::default();
    let mut end = None;
    let mut previous = 0;
    for (index, count) in Filled::new(store) {
        // `as`, since `measure` has found no count above 2^63 - 1
        let count = count as i64;
        deltas[written.deltas] = count - previous;
        written.deltas += 1;
        if end == Some(index) {
            spans[written.spans - 1].1 += 1;
        } else {
            spans[written.spans] = (index - end.unwrap_or(0), 1);
            written.spans += 1;
        }
        end = Some(index + 1);
        previous = count;
    }
}
