// Spans and deltas: the written form of the pairs of one side, and its reader.
#![tactic(auto)]

mod faults;
mod filled;
pub mod laws;
mod opening;
mod reader;
mod reading;
#[cfg(test)]
mod tests;
mod writing;

pub use faults::{SpanFault, WriteFault};
pub use reader::{BucketReader, NativeHistogramBuckets};
pub use writing::{Lengths, measure, write};
