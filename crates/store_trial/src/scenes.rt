// What is tried of every store, and of each kind: chosen calls with their answers, and random ones. Functions, apart from
// the methods of `Trial`, which only calls and compares.
use crate::calls::{Answer, Call};
use crate::indices::{Indices, below};
use crate::trial::{Trial, Trouble};
use random::Random;
use store::{BucketStore, StoreFault};

// The index is added.
fn accepted<S: BucketStore>(trial: &mut Trial<S>, index: i32) -> Result<(), Trouble> {
    trial.expect(Call::Add(index), Answer::Done)
}

// The index is outside the range of all schemas.
fn out_of_range<S: BucketStore>(trial: &mut Trial<S>, index: i32) -> Result<(), Trouble> {
    let fault = StoreFault::OutOfRange(index);
    trial.expect(Call::Add(index), Answer::Refused(fault))
}

// There is no room for the index.
fn turned_away<S: BucketStore>(trial: &mut Trial<S>, index: i32) -> Result<(), Trouble> {
    trial.expect(Call::HasRoom(index), Answer::Room(false))?;
    let fault = StoreFault::NoRoom(index);
    trial.expect(Call::Add(index), Answer::Refused(fault))
}

// The ends of the range of indices, and what lies past them.
fn range<S: BucketStore>(trial: &mut Trial<S>) -> Result<(), Trouble> {
    for index in [i32::MIN, -274_945, 262_146, i32::MAX] {
        trial.expect(Call::Clear, Answer::Done)?;
        out_of_range(trial, index)?;
        trial.expect(Call::Size, Answer::Size(0))?;
        trial.expect(Call::HasRoom(index), Answer::Room(true))?;
    }
    for index in [-274_944, 262_145] {
        trial.expect(Call::Clear, Answer::Done)?;
        accepted(trial, index)?;
        trial.expect(Call::Pair(0), Answer::Pair(Some((index, 1))))?;
        trial.call(Call::HasRoom(i32::MIN))?;
        trial.call(Call::HasRoom(i32::MAX))?;
        out_of_range(trial, i32::MIN)?;
        out_of_range(trial, i32::MAX)?;
        accepted(trial, index)?;
        trial.expect(Call::TakeLowest, Answer::Pair(Some((index, 2))))?;
        trial.expect(Call::TakeLowest, Answer::Pair(None))?;
    }
    Ok(())
}

// Halving odd and even indices on both sides of zero, until none meet.
fn halving<S: BucketStore>(trial: &mut Trial<S>) -> Result<(), Trouble> {
    trial.expect(Call::Clear, Answer::Done)?;
    for index in [-3, -2, -1, 0, 1, 2, 3, 4, 4] {
        accepted(trial, index)?;
    }
    trial.expect(Call::Halve, Answer::Done)?;
    let halves = [(-1, 2), (0, 2), (1, 2), (2, 3)];
    for (position, half) in halves.into_iter().enumerate() {
        trial.expect(Call::Pair(position), Answer::Pair(Some(half)))?;
    }
    trial.compare_all()?;
    for _ in 0..3 {
        trial.expect(Call::Halve, Answer::Done)?;
        trial.expect(Call::Size, Answer::Size(2))?;
        trial.compare_all()?;
    }
    Ok(())
}

// Halves until nothing meets any more.
fn halve_down<S: BucketStore>(trial: &mut Trial<S>) -> Result<(), Trouble> {
    for _ in 0..12 {
        trial.expect(Call::Halve, Answer::Done)?;
        trial.compare_all()?;
    }
    Ok(())
}

// Takes all pairs, lowest first.
fn take_all<S: BucketStore>(trial: &mut Trial<S>) -> Result<(), Trouble> {
    for _ in 0..trial.size() {
        trial.call(Call::TakeLowest)?;
    }
    trial.expect(Call::TakeLowest, Answer::Pair(None))?;
    trial.expect(Call::Size, Answer::Size(0))
}

// A row of 320 pairs: a listed index is still raised, and any other turned away until one leaves.
fn brim<S: BucketStore>(trial: &mut Trial<S>) -> Result<(), Trouble> {
    trial.expect(Call::Size, Answer::Size(320))?;
    trial.compare_all()?;
    for index in [-161, 160, -274_944, 262_145] {
        turned_away(trial, index)?;
    }
    out_of_range(trial, i32::MAX)?;
    for index in [-160, 0, 159] {
        trial.expect(Call::HasRoom(index), Answer::Room(true))?;
        accepted(trial, index)?;
    }
    trial.expect(Call::Pair(0), Answer::Pair(Some((-160, 2))))?;
    trial.expect(Call::Pair(319), Answer::Pair(Some((159, 2))))?;
    trial.expect(Call::TakeLowest, Answer::Pair(Some((-160, 2))))?;
    accepted(trial, 262_145)?;
    turned_away(trial, -160)?;
    trial.compare_all()
}

// Fills an empty store from the lowest index up, looks, and halves; then fills it from the highest down, looks, and empties it.
fn fill_both_ways<S: BucketStore, F: Fn(&mut Trial<S>) -> Result<(), Trouble>>(
    trial: &mut Trial<S>,
    lowest: i32,
    highest: i32,
    when_full: F,
) -> Result<(), Trouble>
    requires { F.IsAlwaysCallable when_full }
{
    trial.expect(Call::Clear, Answer::Done)?;
    (lowest..=highest).try_for_each(|index| accepted(trial, index))?;
    when_full(trial)?;
    halve_down(trial)?;
    trial.expect(Call::Clear, Answer::Done)?;
    (lowest..=highest)
        .rev()
        .try_for_each(|index| accepted(trial, index))?;
    when_full(trial)?;
    take_all(trial)
}

// A row filled from either end.
pub fn row<S: BucketStore>(trial: &mut Trial<S>) -> Result<(), Trouble> {
    fill_both_ways(trial, -160, 159, brim)
}

// A run of the 512 indices from -200 to 311: no room on either side, until the lowest leaves.
fn window<S: BucketStore>(trial: &mut Trial<S>) -> Result<(), Trouble> {
    trial.expect(Call::Size, Answer::Size(512))?;
    trial.compare_all()?;
    for index in [-201, 312, -274_944, 262_145] {
        turned_away(trial, index)?;
    }
    out_of_range(trial, i32::MIN)?;
    accepted(trial, 311)?;
    trial.expect(Call::Pair(511), Answer::Pair(Some((311, 2))))?;
    trial.expect(Call::TakeLowest, Answer::Pair(Some((-200, 1))))?;
    accepted(trial, 312)?;
    turned_away(trial, -200)?;
    turned_away(trial, 313)?;
    trial.compare_all()
}

// Two indices alone: as far apart as a run allows, and one farther.
fn reach<S: BucketStore>(trial: &mut Trial<S>, index: i32) -> Result<(), Trouble> {
    trial.expect(Call::Clear, Answer::Done)?;
    accepted(trial, index)?;
    turned_away(trial, index.saturating_add(512))?;
    turned_away(trial, index.saturating_sub(512))?;
    accepted(trial, index.saturating_add(511))?;
    turned_away(trial, index.saturating_sub(1))?;
    accepted(trial, index.saturating_add(1))?;
    trial.expect(
        Call::Pair(2),
        Answer::Pair(Some((index.saturating_add(511), 1))),
    )?;
    trial.expect(Call::TakeLowest, Answer::Pair(Some((index, 1))))?;
    accepted(trial, index.saturating_add(512))?;
    trial.compare_all()
}

// A run's window filled from either end, and moved along.
pub fn run<S: BucketStore>(trial: &mut Trial<S>) -> Result<(), Trouble> {
    fill_both_ways(trial, -200, 311, window)?;
    for index in [-274_432, -512, -511, -1, 0, 1, 261_632] {
        reach(trial, index)?;
    }
    Ok(())
}

// A random call: mostly an add of one of the indices. `as`, since no `From` leads from `u32` to `usize`.
fn random_call(random: &mut Random, indices: Indices) -> Call {
    let index = indices.pick(random);
    match below(random, 2000) {
        0 => Call::Clear,
        1..=4 => Call::Halve,
        5..=99 => Call::TakeLowest,
        100..=249 => Call::HasRoom(index),
        250..=349 => Call::Pair(below(random, 600) as usize),
        350..=399 => Call::Size,
        _ => Call::Add(index),
    }
}

// Random calls; now and then all that is listed is compared.
fn random_calls<S: BucketStore>(
    trial: &mut Trial<S>,
    seed: u64,
    indices: Indices,
) -> Result<(), Trouble> {
    let mut random = Random::new(seed);
    for turn in 0..3000 {
        trial.call(random_call(&mut random, indices))?;
        if turn % 100 == 99 {
            trial.compare_all()?;
        }
    }
    Ok(())
}

// Random calls with indices in the middle, at the ends and all over the range, and past it.
fn courses<S: BucketStore>(trial: &mut Trial<S>) -> Result<(), Trouble> {
    let courses = [
        (88_172_645_463_325_252, Indices::new(-20, 41)),
        (77, Indices::new(-1_073_741_824, 2_147_483_648)),
        (11, Indices::new(-400, 800)),
        (1_234_567, Indices::new(-3_000, 600)),
        (5, Indices::new(-275_200, 700)),
        (31, Indices::new(261_700, 600)),
        (987_654_321, Indices::new(-280_000, 550_000)),
    ];
    for (seed, indices) in courses {
        random_calls(trial, seed, indices)?;
    }
    Ok(())
}

// What is tried of every store.
pub fn of_every_store<S: BucketStore>(trial: &mut Trial<S>) -> Result<(), Trouble> {
    range(trial)?;
    halving(trial)?;
    courses(trial)
}
