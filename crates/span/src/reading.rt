// Reading pairs one after another.
ghost use Rattle.std.specs.Prelude.{◌≡◌, ◌<◌, length};
ghost use Rattle.std.specs.Iterator.{item_count};
ghost use Rattle.span.specs.Readers.{reader_buckets, reader_pairs, Gives};

use crate::reader::BucketReader;

impl BucketReader<'_> {
    // Begins spans until one lists something, where there is something to read.
    fn begin_span(&mut self)
        requires { 0 < length self.old.deltas.now }
        ensures some { 0 < self.new.left }
        ensures same { reader_buckets self.new ≡ reader_buckets self.old }
        ensures deltas { self.new.deltas ≡ self.old.deltas }
    {
        while self.left == 0 {
            let Some((span, spans)) = self.spans.split_first() else {
                return;
            };
            self.spans = spans;
            self.index += span.0;
            self.left = span.1;
        }
    }

    // The next bucket, with its count, which may be 0.
    fn next_bucket(&mut self) -> Option<(i32, u64)>
        ensures { Gives reader_buckets self.old result self.new }
    {
        let (delta, deltas) = self.deltas.split_first()?;
        self.begin_span();
        let index = self.index;
        self.index += 1;
        self.left -= 1;
        self.deltas = deltas;
        self.count += delta;
        Some((index, self.count.unsigned_abs()))
    }
}

impl Iterator for BucketReader<'_> {
    type Item = (i32, u64);

    ghost next_gives = { Gives reader_pairs };

    ghost remaining = { item_count reader_pairs };

    // No `find`, which would call `next`.
    fn next(&mut self) -> Option<(i32, u64)> {
        while let Some(bucket) = self.next_bucket() {
            if bucket.1 > 0 {
                return Some(bucket);
            }
        }
        None
    }
}
