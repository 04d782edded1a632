// Where an index stands in a row.
ghost use Rattle.std.specs.Prelude.{◌≡◌};
ghost use Rattle.row.specs.Rows.{row_pairs, sought};

use crate::Row;

impl Row {
    // The pairs that the row lists, lowest index first.
    pub(crate) fn listed(&self) -> &[(i32, u64)]
        ensures { result.now ≡ row_pairs self.now }
    {
        &self.pairs[..self.size]
    }

    // The position of the index, or else the position where it would go.
    pub fn search(&self, index: i32) -> Result<usize, usize>
        ensures { result ≡ sought index (row_pairs self.now) }
    {
        // By hand, since with `binary_search_by_key` an add takes about a fifth longer, and three times as long where listed
        // indices come in an order that repeats.
        let mut low = 0;
        let mut high = self.size;
        while low < high {
            let middle = low + (high - low) / 2;
            let here = self.pairs[middle].0;
            if here == index {
                return Ok(middle);
            }
            if here < index {
                low = middle + 1;
            } else {
                high = middle;
            }
        }
        Err(low)
    }
}
