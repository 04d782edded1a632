// Adds whole sequences of indices to a row or a run, for a program of another language that measures how long it takes.
#![tactic(auto)]

use row::Row;
use run::Run;
use store::BucketStore;

// Adds all the indices, and answers how many were accepted. With `filter` and `count` in place of the loop, a row's add of
// indices in order takes half as long again.
fn add_all<S: BucketStore>(store: &mut S, indices: &[i32]) -> u64 {
    let mut accepted = 0u64;
    for index in indices {
        if store.add(*index).is_ok() {
            accepted = accepted.wrapping_add(1);
        }
    }
    accepted
}

// A number that tells what the store lists: each count times its index, and the sum of these, modulo 2^64.
fn checksum<S: BucketStore>(store: &S) -> u64 {
    (0..store.size())
        .filter_map(|position| store.pair(position))
        .map(|(index, count)| i64::from(index).cast_unsigned().wrapping_mul(count))
        .fold(0, u64::wrapping_add)
}

// Adds the indices round after round, and before each round does to the store what is to be done first.
fn adds<S: BucketStore, F: Fn(&mut S)>(store: &mut S, indices: &[i32], rounds: u32, first: F) -> u64
    requires { F.IsAlwaysCallable first }
{
    let mut accepted = 0u64;
    for _ in 0..rounds {
        first(store);
        accepted = accepted.wrapping_add(add_all(store, indices));
    }
    accepted.wrapping_add(checksum(store))
}

// Four functions, since C calls no generic one.
#[unsafe(no_mangle)]
pub extern "C" fn row_adds(indices: &[i32], rounds: u32) -> u64 {
    adds(&mut Row::new(), indices, rounds, |_| {})
}

#[unsafe(no_mangle)]
pub extern "C" fn run_adds(indices: &[i32], rounds: u32) -> u64 {
    adds(&mut Run::new(), indices, rounds, |_| {})
}

#[unsafe(no_mangle)]
pub extern "C" fn row_fills(indices: &[i32], rounds: u32) -> u64 {
    adds(&mut Row::new(), indices, rounds, |store| store.clear())
}

#[unsafe(no_mangle)]
pub extern "C" fn run_fills(indices: &[i32], rounds: u32) -> u64 {
    adds(&mut Run::new(), indices, rounds, |store| store.clear())
}
