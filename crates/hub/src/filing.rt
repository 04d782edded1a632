// Filing readings under a plug.
ghost use Rattle.std.specs.Prelude.{◌≡◌, [], MatchOption};
ghost use Rattle.hub.specs.Chosen.{pairs_in, kind_of};
ghost use Rattle.hub.specs.Filing.{side_of, Empty, Files, Adds, Zeroed, Highest, Load};

use crate::chosen::Buckets;
use crate::plugs::{Plug, Settings};
use schema::{bucket_index, positive_upper_bound};
use std::fmt;
use store::{BucketStore, StoreFault};

// The sign of a reading.
#[derive(Clone, Copy)]
pub enum Side {
    Positive,
    Negative,
}

impl Side {
    // The side of a number other than zero.
    fn of(value: f64) -> Side
        ensures { result ≡ side_of value }
    {
        if value < 0.0 {
            Side::Negative
        } else {
            Side::Positive
        }
    }
}

// By hand: two words, for which no derive is shorter.
impl fmt::Display for Side {
    fn fmt<W: fmt::Write>(&self, f: &mut fmt::Formatter<W>) -> fmt::Result {
        match self {
            Side::Positive => write!(f, "positive"),
            Side::Negative => write!(f, "negative"),
        }
    }
}

// What became of a reading.
#[derive(Clone, Copy)]
pub enum Filed {
    // it lies in the bucket of the index, on its side, and its magnitude is at most the bound
    Bucket(Side, i32, f64),
    Zero,
    NotANumber,
}

// By hand, since it is no error, and only those are derived. A bar's bound stands in other words.
impl fmt::Display for Filed {
    fn fmt<W: fmt::Write>(&self, f: &mut fmt::Formatter<W>) -> fmt::Result {
        match self {
            Filed::Bucket(Side::Positive, index, bound) => write!(
                f,
                "bucket {index}, up to {bound} A"
            ),
            Filed::Bucket(Side::Negative, index, bound) => write!(
                f,
                "negative bucket {index}, down to -{bound} A"
            ),
            Filed::Zero => write!(f, "counted as zero"),
            Filed::NotANumber => write!(f, "not a number, not filed"),
        }
    }
}

// The highest listed index, if any is listed.
fn highest<S: BucketStore>(store: &S) -> Option<i32>
    ensures { MatchOption result (S.BucketStore.pairs store.now ≡ []) (λ i. Highest i (S.BucketStore.pairs store.now)) }
{
    let last = store.size().checked_sub(1)?;
    store.pair(last).map(|(index, _)| index)
}

impl Plug {
    // A plug with no readings.
    pub fn new(settings: Settings) -> Plug
        ensures { Empty settings.kind settings.schema result }
    {
        Plug {
            schema: settings.schema,
            positive: Buckets::new(settings.kind),
            negative: Buckets::new(settings.kind),
            zeros: 0,
            readings: 0,
        }
    }

    // How its buckets are kept.
    pub fn settings(&self) -> Settings
        ensures kind { result.kind ≡ kind_of self.now.positive }
        ensures schema { result.schema ≡ self.now.schema }
    {
        Settings {
            kind: self.positive.kind(),
            schema: self.schema,
        }
    }

    // Files a reading: under its bucket on its side, or as a zero.
    pub fn file(&mut self, value: f64) -> Result<Filed, StoreFault>
        ensures { Files self.old value result self.new }
    {
        if value.is_nan() {
            return Ok(Filed::NotANumber);
        }
        let Some(index) = bucket_index(self.schema, value) else {
            self.add_zero()?;
            return Ok(Filed::Zero);
        };
        let side = Side::of(value);
        self.add(side, index)?;
        Ok(Filed::Bucket(side, index, positive_upper_bound(self.schema, index)))
    }

    // What the hub adds to the running load before it switches the plug on: the bound of the highest
    // occupied bucket above zero.
    pub fn load(&self) -> Option<f64>
        ensures { MatchOption result (pairs_in self.now.positive ≡ []) (Load self.now) }
    {
        highest(&self.positive).map(|index| positive_upper_bound(self.schema, index))
    }

    // Raises the index's count on a side.
    #[tactic(auto, using(crate::proofs::Totals::total_bound))]
    fn add(&mut self, side: Side, index: i32) -> Result<(), StoreFault>
        ensures { Adds self.old side index result self.new }
    {
        // Two arms are plainer here than a method that lends one of the two fields to this one caller.
        match side {
            Side::Positive => self.positive.add(index)?,
            Side::Negative => self.negative.add(index)?,
        }
        self.readings += 1;
        Ok(())
    }

    // Counts a zero.
    fn add_zero(&mut self) -> Result<(), StoreFault>
        ensures { Zeroed self.old result self.new }
    {
        self.zeros = self.zeros.checked_add(1).ok_or(StoreFault::Full)?;
        self.readings += 1;
        Ok(())
    }
}
