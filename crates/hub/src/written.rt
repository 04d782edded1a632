// Buckets as lists: the pairs of a store, its spans and deltas, and the pairs read back from such.
ghost use Rattle.std.specs.Prelude.{◌≡◌, IfOk};
ghost use Rattle.hub.specs.Forms.{WritesOut, ReadsBack};
ghost use Rattle.hub.specs.declared.written.FormError.TheVariants.{NoMemory};

use span::{NativeHistogramBuckets, SpanFault, WriteFault, measure, write};
use std::alloc::{AllocError, Global};
use std::fmt;
use store::BucketStore;

// Spans (offset, length) and deltas: two lists, as the crate `span` writes and reads them.
#[derive(Drop)]
pub struct Written {
    pub spans: Vec<(i32, u32)>,
    pub deltas: Vec<i64>,
}

// The words of a line of the log.
impl fmt::Display for Written {
    fn fmt<W: fmt::Write>(&self, f: &mut fmt::Formatter<W>) -> fmt::Result {
        write!(f, "spans")?;
        self.spans
            .iter()
            .try_for_each(|(offset, length)| write!(f, " {offset}:{length}"))?;
        write!(f, " /")?;
        self.deltas
            .iter()
            .try_for_each(|delta| write!(f, " {delta}"))
    }
}

// Why buckets are not brought from one form into the other.
#[derive(Clone, Copy)]
pub enum FormError<F> {
    Refused(F),
    NoMemory(AllocError),
}

// By hand, since the contracts below tell the two cases apart and a derived `from` would not say which it makes.
impl<F> From<AllocError> for FormError<F> {
    ghost from_gives = { λ a e. e ≡ NoMemory a };

    fn from(error: AllocError) -> FormError<F> {
        FormError::NoMemory(error)
    }
}

// The pairs of a store.
pub fn pairs_of<S: BucketStore>(heap: Global, store: &S) -> Result<Vec<(i32, u64)>, AllocError>
    ensures { IfOk result (λ v. v.items ≡ S.BucketStore.pairs store.now) }
{
    let mut pairs = Vec::new(heap);
    // By `push`, since `collect` asks a second time for memory that was refused.
    for position in 0..store.size() {
        if let Some(pair) = store.pair(position) {
            pairs.push(pair)?;
        }
    }
    Ok(pairs)
}

// The spans and deltas of a store, or why it has none.
pub fn write_out<S: BucketStore>(heap: Global, store: &S) -> Result<Written, FormError<WriteFault>>
    ensures { WritesOut (S.BucketStore.pairs store.now) result }
{
    let lengths = measure(store).map_err(FormError::Refused)?;
    let mut spans = vec![in heap; (0, 0); lengths.spans]?;
    let mut deltas = vec![in heap; 0; lengths.deltas]?;
    write(store, &mut spans, &mut deltas).map_err(FormError::Refused)?;
    Ok(Written { spans, deltas })
}

// The pairs that spans and deltas were written from, or what is wrong with them.
pub fn read_back(heap: Global, written: &Written) -> Result<Vec<(i32, u64)>, FormError<SpanFault>>
    ensures { ReadsBack written.now result }
{
    let buckets = NativeHistogramBuckets {
        spans: &written.spans,
        deltas: &written.deltas,
    };
    let reader = buckets.read().map_err(FormError::Refused)?;
    Ok(reader.collect(heap)?)
}
