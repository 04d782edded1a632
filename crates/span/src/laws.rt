// Facts about all spans and deltas: each function's contract is the fact, and its body does nothing.
ghost use Rattle.span.specs.Laws.{ReadingBack, SpansTell, Worked};

// What is written is accepted by the reader, which yields the pairs again.
pub fn written_reads_back()
    ensures { ReadingBack }
{}

// Two lists of pairs with equal spans and deltas are one list.
pub fn spans_tell_pairs()
    ensures { SpansTell }
{}

// The pairs (0, 1), (1, 2), (4, 1), (8, 3) are written as (0, 5), (3, 1) and 1, 1, -2, 0, 1, 2.
pub fn worked_case()
    ensures { Worked }
{}
