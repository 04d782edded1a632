// A plain model of a store: a map from each listed index to its count, and a rule of room. It shares no
// function with the stores that it is compared with.
ghost use Rattle.std.specs.Prelude.{◌≡◌};
ghost use Rattle.index.specs.Index.{in_index_range, Halves};

use crate::calls::{Answer, Call};
use std::alloc::{AllocError, Global};
use std::collections::BTreeMap;
use store::StoreFault;

// For which indices a store has room.
#[derive(Clone, Copy)]
pub enum Rule {
    // a listed index, or any while fewer than this many are listed
    Listed(usize),
    // the listed indices and the new one lie among this many consecutive ones
    Consecutive(u32),
}

#[derive(Drop)]
pub struct Model {
    heap: Global,
    counts: BTreeMap<i32, u64>,
    rule: Rule,
}

// Half the index, rounded up. `as`, since half of it fits again.
fn half(index: i32) -> i32
    ensures { Halves index result }
{
    ((i64::from(index) + 1) >> 1) as i32
}

// Whether some schema gives this index to some number.
fn known(index: i32) -> bool
    ensures { result ≡ in_index_range index }
{
    (-274_944..=262_145).contains(&index)
}

impl Model {
    pub fn new(heap: Global, rule: Rule) -> Model {
        Model {
            heap,
            counts: BTreeMap::new(heap),
            rule,
        }
    }

    pub fn size(&self) -> usize {
        self.counts.len()
    }

    fn has_room(&self, index: i32) -> bool {
        match self.rule {
            Rule::Listed(most) => self.counts.len() < most || self.counts.contains_key(&index),
            Rule::Consecutive(reach) => self
                .counts
                .keys()
                .all(|other| index.abs_diff(*other) < reach),
        }
    }

    fn add(&mut self, index: i32) -> Result<Answer, AllocError> {
        if !known(index) {
            return Ok(Answer::Refused(StoreFault::OutOfRange(index)));
        }
        if !self.has_room(index) {
            return Ok(Answer::Refused(StoreFault::NoRoom(index)));
        }
        let count = self.counts.entry(index)?.or_insert(0);
        *count = count.saturating_add(1);
        Ok(Answer::Done)
    }

    fn halve(&mut self) -> Result<(), AllocError> {
        let mut coarser = BTreeMap::new(self.heap);
        for (index, count) in &self.counts {
            let sum = coarser.entry(half(*index))?.or_insert(0u64);
            *sum = sum.saturating_add(*count);
        }
        self.counts = coarser;
        Ok(())
    }

    fn pair(&self, position: usize) -> Option<(i32, u64)> {
        self.counts
            .iter()
            .nth(position)
            .map(|(index, count)| (*index, *count))
    }

    // What a store that does as the model does answers to the call, case by case as the store is called.
    pub fn answer(&mut self, call: Call) -> Result<Answer, AllocError> {
        match call {
            Call::Size => Ok(Answer::Size(self.size())),
            Call::Pair(position) => Ok(Answer::Pair(self.pair(position))),
            Call::HasRoom(index) => Ok(Answer::Room(self.has_room(index))),
            Call::Add(index) => self.add(index),
            Call::TakeLowest => Ok(Answer::Pair(self.counts.pop_first())),
            Call::Halve => {
                self.halve()?;
                Ok(Answer::Done)
            }
            Call::Clear => {
                self.counts.clear();
                Ok(Answer::Done)
            }
        }
    }
}
