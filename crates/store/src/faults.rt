// Why a store turns an index away.
ghost use Rattle.std.specs.Prelude.{◌≡◌, Some};
ghost use Rattle.store.specs.Faults.{refusal, message};

use std::error::Error;
use std::fmt;

#[derive(Clone, Copy, PartialEq, Eq, Debug)]
pub enum StoreFault {
    // the index is outside the range of all schemas
    OutOfRange(i32),
    // the counts add up to the most that 64 bits hold
    Full,
    // the store has no room for the index
    NoRoom(i32),
}

impl StoreFault {
    // The number of the refusal. The numbers are published and not in the order of the variants, so no cast gives them.
    pub fn number(&self) -> u8
        ensures { result ≡ (refusal self.now).0 }
    {
        match self {
            StoreFault::OutOfRange(_) => 8,
            StoreFault::Full => 6,
            StoreFault::NoRoom(_) => 7,
        }
    }

    // The place of the refusal: the index, where one is to blame.
    pub fn place(&self) -> i32
        ensures { result ≡ (refusal self.now).1 }
    {
        match self {
            StoreFault::OutOfRange(index) | StoreFault::NoRoom(index) => *index,
            StoreFault::Full => 0,
        }
    }
}

// The text is promised, and a derive would promise nothing of it.
impl fmt::Display for StoreFault {
    ghost output = { λ f. Some (message f) };

    fn fmt<W: fmt::Write>(&self, f: &mut fmt::Formatter<W>) -> fmt::Result {
        let number = self.number();
        match self {
            StoreFault::OutOfRange(index) => write!(
                f,
                "refusal {number}: index {index} is out of range"
            ),
            StoreFault::Full => write!(f, "refusal {number}: the store's total is 2^64 - 1"),
            StoreFault::NoRoom(index) => write!(
                f,
                "refusal {number}: the store has no room for index {index}"
            ),
        }
    }
}

impl Error for StoreFault {}
