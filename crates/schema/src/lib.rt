// Schemas, bucket bounds and bucket indices.
#![tactic(auto)]

mod bounds;
mod choice;
mod faults;
mod indices;
mod kinds;
mod layout;
mod scale;
mod tables;
mod wide;

pub use bounds::positive_upper_bound;
pub use faults::SchemaFault;
pub use indices::bucket_index;
pub use kinds::Schema;
pub use tables::{NATIVE_HISTOGRAM_BOUNDS, tables_stand};
