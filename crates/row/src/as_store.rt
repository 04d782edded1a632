// A row is a store of buckets.
ghost use Rattle.std.specs.Prelude.{◌≡◌, []};
ghost use Rattle.row.specs.Rows.{row_pairs, row_room};
ghost use Rattle.row.specs.Laws.{row_means, row_ranged, row_roomy};

use crate::halving::halve_all;
use crate::{CAPACITY, Row};
use index::in_index_range;
use store::{BucketStore, StoreFault};

impl Row {
    // A row that lists nothing.
    pub fn new() -> Self
        ensures { row_pairs result ≡ [] }
    {
        Row {
            pairs: [(0, 0); CAPACITY],
            size: 0,
            total: 0,
        }
    }
}

impl BucketStore for Row {
    ghost pairs = { row_pairs };

    ghost room = { λ r. row_room (row_pairs r) };

    ghost means = { row_means };

    ghost in_range = { row_ranged };

    ghost roomy = { row_roomy };

    fn size(&self) -> usize {
        self.size
    }

    fn pair(&self, position: usize) -> Option<(i32, u64)> {
        self.listed().get(position).copied()
    }

    fn has_room(&self, index: i32) -> bool {
        self.size < CAPACITY || self.search(index).is_ok()
    }

    fn add(&mut self, index: i32) -> Result<(), StoreFault> {
        // Range and total are tested as a run tests them, each by its own fields.
        if !in_index_range(index) {
            return Err(StoreFault::OutOfRange(index));
        }
        if self.total == u64::MAX {
            return Err(StoreFault::Full);
        }
        match self.search(index) {
            Ok(position) => self.raise_at(position),
            Err(_) if self.size == CAPACITY => return Err(StoreFault::NoRoom(index)),
            Err(position) => self.insert(position, index),
        }
        Ok(())
    }

    fn take_lowest(&mut self) -> Option<(i32, u64)> {
        let lowest = *self.listed().first()?;
        self.pairs.copy_within(1..self.size, 0);
        self.size -= 1;
        self.total -= lowest.1;
        Some(lowest)
    }

    fn halve(&mut self) {
        // The whole table is lent, since a lent part of a field gets no proof.
        self.size = halve_all(&mut self.pairs, self.size);
    }

    fn clear(&mut self) {
        self.size = 0;
        self.total = 0;
    }
}
