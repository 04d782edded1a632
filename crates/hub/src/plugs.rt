// What is kept of one plug.
ghost use Rattle.std.specs.Prelude.{◌≡◌, ◌+◌, ◌^◌, ◌<◌};
ghost use Rattle.store.specs.Pairs.{total};
ghost use Rattle.hub.specs.Chosen.{pairs_in};

use crate::chosen::{Buckets, StoreKind};
use schema::Schema;
use std::fmt;

// How the buckets of a plug are kept.
#[derive(Clone, Copy)]
pub struct Settings {
    pub kind: StoreKind,
    pub schema: Schema,
}

// The settings of a plug whose line names none: a row, and eight buckets in each octave.
impl Default for Settings {
    ghost use Rattle.std.specs.Prelude.{pos};
    ghost use Rattle.hub.specs.declared.chosen.StoreKind.TheVariants.{Row};

    ghost is_default = { λ s. (s.kind ≡ Row) × (s.schema.value ≡ pos 3) };

    fn default() -> Settings {
        Settings {
            kind: StoreKind::Row,
            schema: Schema::new(3).unwrap(),
        }
    }
}

impl fmt::Display for Settings {
    fn fmt<W: fmt::Write>(&self, f: &mut fmt::Formatter<W>) -> fmt::Result {
        let kind = self.kind;
        let schema = self.schema.value();
        write!(f, "a {kind} at schema {schema}")
    }
}

#[derive(Drop)]
pub struct Plug {
    pub(crate) schema: Schema,
    // readings above zero
    pub(crate) positive: Buckets,
    // readings below zero, by their magnitude
    pub(crate) negative: Buckets,
    // how many readings of zero
    pub(crate) zeros: u64,
    // how many readings in all
    pub(crate) readings: u128,
    ghost few: { zeros < 2 ^ 64 },
    ghost counts: { readings ≡ total (pairs_in positive) + total (pairs_in negative) + zeros },
}
