// Why pairs are not written, and why spans and deltas are not read.
ghost use Rattle.std.specs.Prelude.{◌≡◌, Some};
ghost use Rattle.span.specs.Faults.{write_fault, span_fault, write_message, span_message};

use std::fmt;

#[derive(Clone, Copy, PartialEq, Eq, Debug)]
pub enum WriteFault {
    // the count of the index is above 2^63 - 1
    LargeCount(i32),
    // the buffer for spans is too short
    FewSpans,
    // the buffer for deltas is too short
    FewDeltas,
}

impl WriteFault {
    // The number of the refusal, as published.
    pub fn number(&self) -> u8
        ensures { result ≡ (write_fault self.now).0 }
    {
        match self {
            WriteFault::LargeCount(_) => 10,
            WriteFault::FewSpans | WriteFault::FewDeltas => 9,
        }
    }

    // The place of the refusal, as published: the index, or the buffer.
    pub fn place(&self) -> i64
        ensures { result ≡ (write_fault self.now).1 }
    {
        match self {
            WriteFault::LargeCount(index) => i64::from(*index),
            WriteFault::FewSpans => 1,
            WriteFault::FewDeltas => 2,
        }
    }
}

// By hand, since the contract promises the text.
impl fmt::Display for WriteFault {
    ghost output = { λ f. Some (write_message f) };

    fn fmt<W: fmt::Write>(&self, f: &mut fmt::Formatter<W>) -> fmt::Result {
        let number = self.number();
        match self {
            WriteFault::LargeCount(index) => write!(
                f,
                "refusal {number}: index {index} has a count above 2^63 - 1"
            ),
            WriteFault::FewSpans => write!(
                f,
                "refusal {number}: the buffer for spans is too short"
            ),
            WriteFault::FewDeltas => write!(
                f,
                "refusal {number}: the buffer for deltas is too short"
            ),
        }
    }
}

#[derive(Clone, Copy, PartialEq, Eq, Debug)]
pub enum SpanFault {
    // the lengths do not sum to this number of deltas
    LengthSum(i64),
    // the span of this number has length 0
    EmptySpan(i64),
    // the span of this number goes back
    BackwardSpan(i64),
    // the span of this number reaches an index that no schema has
    OutOfRange(i64),
    // the count at the delta of this number is below 0 or above 2^63 - 1
    CountRange(i64),
}

impl SpanFault {
    // The number of the refusal, as published.
    pub fn number(&self) -> u8
        ensures { result ≡ (span_fault self.now).0 }
    {
        match self {
            SpanFault::LengthSum(_) => 11,
            SpanFault::EmptySpan(_) => 12,
            SpanFault::BackwardSpan(_) => 13,
            SpanFault::OutOfRange(_) => 14,
            SpanFault::CountRange(_) => 15,
        }
    }

    // The place of the refusal, as published: the number of deltas, of the span or of the delta.
    pub fn place(&self) -> i64
        ensures { result ≡ (span_fault self.now).1 }
    {
        match self {
            SpanFault::LengthSum(deltas) => *deltas,
            SpanFault::EmptySpan(span)
            | SpanFault::BackwardSpan(span)
            | SpanFault::OutOfRange(span) => *span,
            SpanFault::CountRange(delta) => *delta,
        }
    }
}

// By hand, since the contract promises the text.
impl fmt::Display for SpanFault {
    ghost output = { λ f. Some (span_message f) };

    fn fmt<W: fmt::Write>(&self, f: &mut fmt::Formatter<W>) -> fmt::Result {
        let number = self.number();
        match self {
            SpanFault::LengthSum(deltas) => {
                write!(
                    f,
                    "refusal {number}: the span lengths do not sum to the number of deltas, {deltas}"
                )
            }
            SpanFault::EmptySpan(span) => write!(f, "refusal {number}: span {span} has length 0"),
            SpanFault::BackwardSpan(span) => write!(
                f,
                "refusal {number}: span {span} has a negative offset"
            ),
            SpanFault::OutOfRange(span) => write!(
                f,
                "refusal {number}: span {span} reaches an index out of range"
            ),
            SpanFault::CountRange(delta) => {
                write!(
                    f,
                    "refusal {number}: delta {delta} takes the count below 0 or above 2^63 - 1"
                )
            }
        }
    }
}
