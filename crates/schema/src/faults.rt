// Why a schema is not made.
ghost use Rattle.std.specs.Prelude.{◌≡◌};
ghost use Rattle.schema.specs.Faults.{refusal};

use std::fmt;

#[derive(Clone, Copy, PartialEq, Eq, Debug)]
pub enum SchemaFault {
    // the number is outside -4 to 8
    OutOfRange,
    // the bucket factor is a NaN or not above 1
    BadFactor,
}

impl SchemaFault {
    // The number of the refusal. It is published and printed, so it is written out here and in the definition.
    pub fn number(&self) -> u8
        ensures { result ≡ (refusal self.now).0 }
    {
        match self {
            SchemaFault::OutOfRange => 1,
            SchemaFault::BadFactor => 2,
        }
    }
}

// By hand, as the faults of the other crates.
impl fmt::Display for SchemaFault {
    fn fmt<W: fmt::Write>(&self, f: &mut fmt::Formatter<W>) -> fmt::Result {
        let rule = match self {
            SchemaFault::OutOfRange => "a schema is a whole number from -4 to 8",
            SchemaFault::BadFactor => "a bucket factor is a number above 1",
        };
        write!(f, "refusal {}: {rule}", self.number())
    }
}
