// One more of an index.
ghost use Rattle.std.specs.Prelude.{◌≡◌, ◌+◌, ◌^◌, ◌<◌, T, pos, Err, slice_index_or};
ghost use Rattle.index.specs.Index.{in_index_range};
ghost use Rattle.store.specs.Pairs.{raised};
ghost use Rattle.row.specs.Rows.{row_pairs, sought};

use crate::Row;

impl Row {
    // Raises the count at a position by one.
    pub(crate) fn raise_at(&mut self, position: usize)
        requires within { position < self.old.size }
        requires bounded { self.old.total + 1 < 2 ^ 64 }
        ensures { row_pairs self.new ≡ raised (slice_index_or (row_pairs self.old) position (pos 0, 0)).0 (row_pairs self.old) }
    {
        self.pairs[position].1 += 1;
        self.total += 1;
    }

    // Lists a new index at its place, with count 1; the pairs from there on move up.
    pub(crate) fn insert(&mut self, position: usize, index: i32)
        requires place { sought index (row_pairs self.old) ≡ Err position }
        requires range { T (in_index_range index) }
        requires room { self.old.size < 320 }
        requires bounded { self.old.total + 1 < 2 ^ 64 }
        ensures { row_pairs self.new ≡ raised index (row_pairs self.old) }
    {
        self.pairs.copy_within(position..self.size, position + 1);
        self.pairs[position] = (index, 1);
        self.size += 1;
        self.total += 1;
    }
}
