// What a run does as a store.
ghost use Rattle.std.specs.Prelude.{◌≡◌, ◌+◌, ◌^◌, ◌<◌, ◌≤◌, []};
ghost use Rattle.std.specs.Result.{result_err};
ghost use Rattle.store.specs.Stores.{add_refusal};
ghost use Rattle.run.specs.Runs.{pairs_of, room_of, told};
ghost use Rattle.run.specs.Window.{positions, index_of, counter, raised_by, Near, Widened, Next};
ghost use Rattle.run.specs.Windows.{window_of, window_means, window_ranged, window_roomy};

use crate::places::{Position, Window};
use crate::{PLACES, Run};
use index::in_index_range;
use store::{BucketStore, StoreFault};

// How far apart two listed indices may be.
const REACH: i32 = 511;

impl Run {
    // A run that lists nothing.
    pub fn new() -> Self
        ensures { pairs_of result ≡ [] }
    {
        Run {
            counters: [0; PLACES],
            window: Window::EMPTY,
            size: 0,
            total: 0,
        }
    }

    // The count at a position.
    fn counter(&self, at: usize) -> u64
        ensures { result ≡ counter self.now.counters at }
    {
        self.counters[at % PLACES]
    }

    // The index at a position, and its count.
    fn bucket(&self, at: usize) -> (i32, u64)
        requires { at < positions }
        ensures { result ≡ (index_of at, counter self.now.counters at) }
    {
        (Position { at }.index(), self.counter(at))
    }

    // Refuses an index that cannot be added. Range and total are tested as a row tests them, each by its own fields.
    fn check(&self, index: i32) -> Result<(), StoreFault>
        ensures { told (result_err result) ≡ add_refusal (pairs_of self.now) (room_of self.now) index }
    {
        if !in_index_range(index) {
            return Err(StoreFault::OutOfRange(index));
        }
        if self.total == u64::MAX {
            return Err(StoreFault::Full);
        }
        if !self.has_room(index) {
            return Err(StoreFault::NoRoom(index));
        }
        Ok(())
    }

    // Raises the count at a position.
    fn raise(&mut self, position: Position, by: u64)
        requires more { 0 < by }
        requires fits { self.old.total + by < 2 ^ 64 }
        requires near { Near self.old.window.first self.old.window.span position.at }
        ensures pairs { pairs_of self.new ≡ raised_by (index_of position.at) by (pairs_of self.old) }
        ensures window { Widened self.old.window.first self.old.window.span position.at self.new.window.first self.new.window.span }
    {
        self.window = self.window.widened(position);
        let place = position.at % PLACES;
        if self.counters[place] == 0 {
            self.size += 1;
        }
        self.counters[place] += by;
        self.total += by;
    }

    // The first position from this one on whose counter is used, or the window's end.
    fn used_from(&self, from: usize) -> usize
        requires { from ≤ self.now.window.first + self.now.window.span }
        ensures { Next (counter self.now.counters) from (self.now.window.first + self.now.window.span) result }
    {
        let end = self.window.end();
        (from..end).find(|&at| self.counter(at) > 0).unwrap_or(end)
    }
}

impl BucketStore for Run {
    ghost pairs = { pairs_of };

    ghost room = { room_of };

    ghost means = { λ run. window_means (window_of run) };

    ghost in_range = { λ run. window_ranged (window_of run) };

    ghost roomy = { λ run. window_roomy (window_of run) };

    fn size(&self) -> usize {
        self.size
    }

    fn pair(&self, position: usize) -> Option<(i32, u64)> {
        // a call past the end walks nothing
        if position >= self.size {
            return None;
        }
        // Counted down by hand, since with `filter` and `nth` a run of many pairs takes up to twice as long to be written.
        let mut left = position;
        for at in self.window.first..self.window.first + self.window.span {
            let count = self.counter(at);
            if count > 0 {
                if left == 0 {
                    return Some((Position { at }.index(), count));
                }
                left -= 1;
            }
        }
        None
    }

    fn has_room(&self, index: i32) -> bool {
        let Some((lowest, highest)) = self.window.ends() else {
            return true;
        };
        (highest.index() - REACH..=lowest.index() + REACH).contains(&index)
    }

    fn add(&mut self, index: i32) -> Result<(), StoreFault> {
        self.check(index)?;
        self.raise(Position::of(index), 1);
        Ok(())
    }

    fn take_lowest(&mut self) -> Option<(i32, u64)> {
        let (lowest, _) = self.window.ends()?;
        let (index, count) = self.bucket(lowest.at);
        let next = self.used_from(lowest.at + 1);
        self.counters[lowest.at % PLACES] = 0;
        self.window = self.window.starting_at(next);
        self.size -= 1;
        self.total -= count;
        Some((index, count))
    }

    fn halve(&mut self) {
        // an empty run is not copied
        if self.window.span == 0 {
            return;
        }
        let mut halved = Run::new();
        for at in self.window.positions().rev() {
            let count = self.counter(at);
            if count > 0 {
                halved.raise(Position { at }.coarser(), count);
            }
        }
        *self = halved;
    }

    fn clear(&mut self) {
        *self = Run::new();
    }
}
