// Counts the checks of a schema, and keeps the first that fails.
ghost use Rattle.std.specs.Prelude.{◌≡◌};

use schema::Schema;
use std::fmt;

// What a check is of.
#[derive(Clone, Copy, Debug)]
pub enum Law {
    // bounds do not fall
    Rising,
    // the bound is this power of two
    Power,
    // a schema coarser has the bound at half the index
    Shared,
    // the bound has the index, and the next double has the next index
    Bound,
    Above,
    Below,
    // the bound before is below the number, and the bound of its index is not
    Bucket,
    // the number with a minus sign has the same index and the same parts
    Sign,
    // a schema coarser has half the index, rounded up
    Halving,
    // fraction and exponent make the number
    Parts,
    // the ends of a schema's range
    Ends,
    // zero and NaN have no index
    Nothing,
}

// A number, and the index there.
#[derive(Clone, Copy)]
pub struct Place {
    pub value: f64,
    pub index: Option<i32>,
}

impl Place {
    pub fn new(value: f64, index: i32) -> Place {
        Place {
            value,
            index: Some(index),
        }
    }
}

// A check that failed, and where.
#[derive(Clone, Copy)]
pub struct Failure {
    law: Law,
    place: Place,
}

// By hand, as the place is printed in two parts.
impl fmt::Display for Failure {
    fn fmt<W: fmt::Write>(&self, f: &mut fmt::Formatter<W>) -> fmt::Result {
        let Place { value, index } = self.place;
        write!(f, "{:?} fails at {value:?}, index {index:?}", self.law)
    }
}

#[derive(Clone, Copy)]
pub struct Checks {
    pub schema: Schema,
    made: u64,
    first_failure: Option<Failure>,
}

impl Checks {
    pub fn new(schema: Schema) -> Checks
        ensures { result.made ≡ 0 }
    {
        Checks {
            schema,
            made: 0,
            first_failure: None,
        }
    }

    pub fn made(&self) -> u64
        ensures { result ≡ self.now.made }
    {
        self.made
    }

    pub fn first_failure(&self) -> Option<Failure>
        ensures { result ≡ self.now.first_failure }
    {
        self.first_failure
    }

    // One more check, of a number and the index there.
    pub fn see(&mut self, law: Law, place: Place, holds: bool) {
        self.made = self.made.saturating_add(1);
        if !holds {
            self.first_failure.get_or_insert(Failure { law, place });
        }
    }
}

impl fmt::Display for Checks {
    fn fmt<W: fmt::Write>(&self, f: &mut fmt::Formatter<W>) -> fmt::Result {
        let made = self.made();
        match self.first_failure() {
            None => write!(f, "{made} checks ok"),
            Some(failure) => write!(f, "{made} checks, first failure: {failure}"),
        }
    }
}
