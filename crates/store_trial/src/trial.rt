// A store beside its model: each call is made of both, and the answers compared.
use crate::calls::{Answer, Call, make};
use crate::model::{Model, Rule};
use std::alloc::{AllocError, Global};
use store::{BucketStore, StoreFault};
use thiserror::Error;

#[derive(Debug, Drop, Error)]
pub enum Trouble {
    #[error("no memory")]
    Memory(#[from(alloc)] AllocError),
    // calls are counted from 1
    #[error("call {number}, {call:?}, answers {answer:?} and not {expected:?}")]
    Differs {
        number: u64,
        call: Call,
        answer: Answer,
        expected: Answer,
    },
}

// How many calls were made, and how their adds ended.
#[derive(Clone, Copy, Default)]
pub struct Tally {
    pub calls: u64,
    pub accepted: u64,
    pub full: u64,
    pub no_room: u64,
    pub out_of_range: u64,
}

impl Tally {
    fn count(&mut self, call: Call, answer: Answer) {
        self.calls = self.calls.saturating_add(1);
        let counter = match (call, answer) {
            (Call::Add(_), Answer::Done) => &mut self.accepted,
            (_, Answer::Refused(StoreFault::Full)) => &mut self.full,
            (_, Answer::Refused(StoreFault::NoRoom(_))) => &mut self.no_room,
            (_, Answer::Refused(StoreFault::OutOfRange(_))) => &mut self.out_of_range,
            _ => return,
        };
        *counter = counter.saturating_add(1);
    }
}

#[derive(Drop)]
pub struct Trial<S> {
    store: S,
    model: Model,
    pub tally: Tally,
}

impl<S: BucketStore> Trial<S> {
    // A store that lists nothing, beside a model.
    pub fn new(heap: Global, store: S, rule: Rule) -> Trial<S> {
        Trial {
            store,
            model: Model::new(heap, rule),
            tally: Tally::default(),
        }
    }

    // How many indices the model lists.
    pub fn size(&self) -> usize {
        self.model.size()
    }

    // That the call just made answers as expected.
    fn compare(&self, call: Call, answer: Answer, expected: Answer) -> Result<(), Trouble> {
        if answer == expected {
            return Ok(());
        }
        Err(Trouble::Differs {
            number: self.tally.calls,
            call,
            answer,
            expected,
        })
    }

    // Makes a call of both, and answers what both answer.
    pub fn call(&mut self, call: Call) -> Result<Answer, Trouble> {
        let answer = make(&mut self.store, call);
        let expected = self.model.answer(call)?;
        self.tally.count(call, answer);
        self.compare(call, answer, expected)?;
        Ok(answer)
    }

    // Makes a call of both, which answers this.
    pub fn expect(&mut self, call: Call, expected: Answer) -> Result<(), Trouble> {
        let answer = self.call(call)?;
        self.compare(call, answer, expected)
    }

    // Compares all that is listed.
    pub fn compare_all(&mut self) -> Result<(), Trouble> {
        let size = self.size();
        self.expect(Call::Size, Answer::Size(size))?;
        for position in 0..size {
            self.call(Call::Pair(position))?;
        }
        self.expect(Call::Pair(size), Answer::Pair(None))
    }
}
