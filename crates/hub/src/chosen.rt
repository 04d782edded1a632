// The store that a plug was told to keep: a row or a run.
ghost use Rattle.std.specs.Prelude.{◌≡◌, []};
ghost use Rattle.hub.specs.Chosen.{pairs_in, room_in, kind_of};
ghost use Rattle.hub.specs.Stores.{means_in, ranged_in, roomy_in};

use row::Row;
use run::Run;
use std::fmt;
use store::{BucketStore, StoreFault};

#[derive(Clone, Copy)]
pub enum StoreKind {
    Row,
    Run,
}

// By hand: two words, for which no derive is shorter.
impl fmt::Display for StoreKind {
    fn fmt<W: fmt::Write>(&self, f: &mut fmt::Formatter<W>) -> fmt::Result {
        match self {
            StoreKind::Row => write!(f, "row"),
            StoreKind::Run => write!(f, "run"),
        }
    }
}

#[derive(Clone, Copy)]
pub enum Buckets {
    InRow(Row),
    InRun(Run),
}

impl Buckets {
    // A store of the kind that lists nothing.
    pub fn new(kind: StoreKind) -> Buckets
        ensures empty { pairs_in result ≡ [] }
        ensures kind { kind_of result ≡ kind }
    {
        match kind {
            StoreKind::Row => Buckets::InRow(Row::new()),
            StoreKind::Run => Buckets::InRun(Run::new()),
        }
    }

    // Its kind.
    pub fn kind(&self) -> StoreKind
        ensures { result ≡ kind_of self.now }
    {
        match self {
            Buckets::InRow(_) => StoreKind::Row,
            Buckets::InRun(_) => StoreKind::Run,
        }
    }
}

// Each method is that of the store held: which one is known only while the program runs, and an arm is one call.
impl BucketStore for Buckets {
    ghost pairs = { pairs_in };

    ghost room = { room_in };

    ghost means = { means_in };

    ghost in_range = { ranged_in };

    ghost roomy = { roomy_in };

    fn size(&self) -> usize {
        match self {
            Buckets::InRow(row) => row.size(),
            Buckets::InRun(run) => run.size(),
        }
    }

    fn pair(&self, position: usize) -> Option<(i32, u64)> {
        match self {
            Buckets::InRow(row) => row.pair(position),
            Buckets::InRun(run) => run.pair(position),
        }
    }

    fn has_room(&self, index: i32) -> bool {
        match self {
            Buckets::InRow(row) => row.has_room(index),
            Buckets::InRun(run) => run.has_room(index),
        }
    }

    fn add(&mut self, index: i32) -> Result<(), StoreFault> {
        match self {
            Buckets::InRow(row) => row.add(index),
            Buckets::InRun(run) => run.add(index),
        }
    }

    fn take_lowest(&mut self) -> Option<(i32, u64)> {
        match self {
            Buckets::InRow(row) => row.take_lowest(),
            Buckets::InRun(run) => run.take_lowest(),
        }
    }

    fn halve(&mut self) {
        match self {
            Buckets::InRow(row) => row.halve(),
            Buckets::InRun(run) => run.halve(),
        }
    }

    fn clear(&mut self) {
        match self {
            Buckets::InRow(row) => row.clear(),
            Buckets::InRun(run) => run.clear(),
        }
    }
}
