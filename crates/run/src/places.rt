// Positions: indices counted from the lowest index of all schemas, and windows of them.
ghost use Rattle.std.specs.Prelude.{◌≡◌, ◌+◌, ◌-◌, ◌<◌, ◌≤◌, T, MatchOption};
ghost use Rattle.index.specs.Index.{in_index_range, halved};
ghost use Rattle.run.specs.Window.{positions, index_of, coarse, Near, Widened};

use index::{LOWEST_INDEX, coarser_index};
use std::ops::Range;

// An index, counted from the lowest index of all schemas.
#[derive(Clone, Copy)]
pub(crate) struct Position {
    pub(crate) at: usize,
    ghost bound: { at < positions },
}

impl Position {
    // The position of an index.
    pub(crate) fn of(index: i32) -> Position
        requires { T (in_index_range index) }
        ensures { index_of result.at ≡ index }
    {
        // i32 and usize convert into each other by no From; that nothing is lost is proved
        Position {
            at: (index - LOWEST_INDEX) as usize,
        }
    }

    // The index at this position.
    pub(crate) fn index(self) -> i32
        ensures { result ≡ index_of self.at }
    {
        // by no From, as above
        LOWEST_INDEX + self.at as i32
    }

    // The position of the index one schema coarser.
    pub(crate) fn coarser(self) -> Position
        ensures value { result.at ≡ coarse self.at }
        ensures index { index_of result.at ≡ halved (index_of self.at) }
    {
        Position::of(coarser_index(self.index()))
    }
}

// Consecutive positions, as many as there are counters at most.
#[derive(Clone, Copy)]
pub(crate) struct Window {
    pub(crate) first: usize,
    // how many positions there are
    pub(crate) span: usize,
    ghost width: { span ≤ 512 },
    ghost reach: { first + span ≤ positions },
}

impl Window {
    // The window of no position.
    pub(crate) const EMPTY: Window = Window { first: 0, span: 0 };

    // The position after the last.
    pub(crate) fn end(self) -> usize
        ensures { result ≡ self.first + self.span }
    {
        self.first + self.span
    }

    pub(crate) fn positions(self) -> Range<usize>
        ensures { result ≡ record { start = self.first; end = self.first + self.span } }
    {
        self.first..self.end()
    }

    // The first position and the last, if there are any.
    pub(crate) fn ends(self) -> Option<(Position, Position)>
        ensures { MatchOption result (self.span ≡ 0) (λ ends. (0 < self.span) × (ends.0.at ≡ self.first) × (ends.1.at ≡ self.first + self.span - 1)) }
    {
        if self.span == 0 {
            return None;
        }
        Some((Position { at: self.first }, Position { at: self.end() - 1 }))
    }

    // What is left of it from this position on.
    pub(crate) fn starting_at(self, first: usize) -> Window
        requires { (self.first ≤ first) × (first ≤ self.first + self.span) }
        ensures first { result.first ≡ first }
        ensures span { result.span ≡ self.first + self.span - first }
    {
        Window {
            first,
            span: self.end() - first,
        }
    }

    // Widened so far that it holds the position too.
    pub(crate) fn widened(self, position: Position) -> Window
        requires { Near self.first self.span position.at }
        ensures { Widened self.first self.span position.at result.first result.span }
    {
        // by branches, since `min` and `max` make an add take a twentieth longer
        let at = position.at;
        if self.span == 0 {
            Window { first: at, span: 1 }
        } else if at < self.first {
            Window {
                first: at,
                span: self.end() - at,
            }
        } else if at < self.end() {
            self
        } else {
            Window {
                first: self.first,
                span: at - self.first + 1,
            }
        }
    }
}
