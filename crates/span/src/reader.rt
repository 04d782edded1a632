// Spans and deltas as they come, and a reader of those that have been checked.
ghost use Rattle.span.specs.Reading.{Sound};

// Spans (offset, length) and deltas of one side, as they were written.
#[derive(Clone, Copy)]
pub struct NativeHistogramBuckets<'a> {
    pub spans: &'a [(i32, u32)],
    pub deltas: &'a [i64],
}

// What is left to read; only `NativeHistogramBuckets::read` makes one.
// It is `Copy`, so it holds slices: an iterator over one is not.
#[derive(Clone, Copy)]
pub struct BucketReader<'a> {
    // the spans not begun yet
    pub(crate) spans: &'a [(i32, u32)],
    // the deltas not read yet
    pub(crate) deltas: &'a [i64],
    // the next index, of which the span begun lists `left` more
    pub(crate) index: i32,
    pub(crate) left: u32,
    // the count read last
    pub(crate) count: i64,
    pub ghost sound: { Sound index left spans.now count deltas.now },
}
