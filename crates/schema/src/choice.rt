// Making a schema.
ghost use Rattle.std.specs.Prelude.{◌≡◌, not, T, pos, neg_ℤ, MatchOption, MatchResult};
ghost use Rattle.schema.specs.Bounds.{is_schema, lowest_index, highest_index};
ghost use Rattle.schema.specs.Factor.{is_factor, schema_for, Smallest};
ghost use Rattle.schema.specs.Faults.{refusal};
ghost use Rattle.schema.specs.Laws.{Coarser, EndsReached};

use crate::bounds::positive_upper_bound;
use crate::faults::SchemaFault;
use crate::indices::finite_index;
use crate::kinds::Schema;

// The first schema from -4 on whose bound of index 1, its growth, is at most the factor, else 8.
fn first_fitting(factor: f64) -> Schema
    ensures { result.value ≡ schema_for factor }
{
    for value in -4..8 {
        let schema = Schema { value };
        if positive_upper_bound(schema, 1) <= factor {
            return schema;
        }
    }
    Schema { value: 8 }
}

impl Schema {
    // The schema of a number from -4 to 8. `TryFrom<i8>` beside it would be a second name for the same promise.
    pub fn new(value: i8) -> Result<Schema, SchemaFault>
        ensures { MatchResult result (λ s. s.value ≡ value) (λ f. T (not (is_schema value)) × (refusal f ≡ (1, pos 0))) }
    {
        if (-4..=8).contains(&value) {
            Ok(Schema { value })
        } else {
            Err(SchemaFault::OutOfRange)
        }
    }

    // The coarsest schema whose bounds grow by at most the factor from one to the next, else 8.
    pub fn from_factor(factor: f64) -> Result<Schema, SchemaFault>
        ensures { MatchResult result (λ s. T (is_factor factor) × ((s.value ≡ schema_for factor) × Smallest factor s.value)) (λ f. T (not (is_factor factor)) × (refusal f ≡ (2, pos 0))) }
    {
        if factor > 1.0 {
            Ok(first_fitting(factor))
        } else {
            Err(SchemaFault::BadFactor)
        }
    }

    // The number of the schema.
    pub fn value(self) -> i8
        ensures { result ≡ self.value }
    {
        self.value
    }

    // The schema one coarser, unless it is the coarsest.
    pub fn coarser(self) -> Option<Schema>
        ensures { MatchOption result (self.value ≡ neg_ℤ (pos 4)) (λ t. Coarser self.value t.value) }
    {
        Schema::new(self.value - 1).ok()
    }

    // The lowest index, that of 2^-1074, and the highest, that of infinity.
    pub fn index_range(self) -> (i32, i32)
        ensures lowest { result.0 ≡ lowest_index self.value }
        ensures highest { result.1 ≡ highest_index self.value }
        ensures reached { EndsReached self.value }
    {
        (
            finite_index(self, f64::from_bits(1)),
            finite_index(self, f64::MAX) + 1,
        )
    }
}
