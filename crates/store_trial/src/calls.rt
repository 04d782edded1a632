// The calls of a store, and what they answer.
use store::{BucketStore, StoreFault};

#[derive(Clone, Copy, Debug)]
pub enum Call {
    Size,
    Pair(usize),
    HasRoom(i32),
    Add(i32),
    TakeLowest,
    Halve,
    Clear,
}

#[derive(Clone, Copy, PartialEq, Debug)]
pub enum Answer {
    Done,
    Size(usize),
    Pair(Option<(i32, u64)>),
    Room(bool),
    // no `Result` beside `Done`, which two other calls answer too
    Refused(StoreFault),
}

// Makes the call of a store. Calls are values, since each is made of two, compared and printed.
pub fn make<S: BucketStore>(store: &mut S, call: Call) -> Answer {
    match call {
        Call::Size => Answer::Size(store.size()),
        Call::Pair(position) => Answer::Pair(store.pair(position)),
        Call::HasRoom(index) => Answer::Room(store.has_room(index)),
        Call::Add(index) => match store.add(index) {
            Ok(()) => Answer::Done,
            Err(fault) => Answer::Refused(fault),
        },
        Call::TakeLowest => Answer::Pair(store.take_lowest()),
        Call::Halve => {
            store.halve();
            Answer::Done
        }
        Call::Clear => {
            store.clear();
            Answer::Done
        }
    }
}
