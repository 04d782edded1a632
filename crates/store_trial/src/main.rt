// Tries both stores beside a plain model of them, and prints a summary, or the first call where they differ.
#![tactic(auto)]

mod calls;
mod indices;
mod model;
mod scenes;
mod trial;

use model::Rule;
use row::Row;
use run::Run;
use std::io;
use store::BucketStore;
use trial::{Tally, Trial, Trouble};

// Prints how a trial went, and answers whether it went well.
fn report<S: BucketStore>(
    rt: &impl Print,
    name: &str,
    trial: &Trial<S>,
    outcome: Result<(), Trouble>,
) -> io::Result<bool> {
    let Tally {
        calls,
        accepted,
        full,
        no_room,
        out_of_range,
    } = trial.tally;
    println!(rt; "{name}: {calls} calls, {accepted} adds accepted")?;
    println!(rt; "{name}: refusal 6 {full} times, 7 {no_room} times, 8 {out_of_range} times")?;
    println!(rt; "{name}: size {} at the end", trial.size())?;
    match outcome {
        Ok(()) => Ok(true),
        Err(trouble) => {
            println!(rt; "{name}: {trouble}")?;
            Ok(false)
        }
    }
}

// Tries a store: its own scene, and then what is tried of every store. Prints how it went, and answers whether it went well.
fn try_store<S: BucketStore + Drop, F: FnOnce(&mut Trial<S>) -> Result<(), Trouble>>(
    rt: &impl Print,
    name: &str,
    mut trial: Trial<S>,
    own_scene: F,
) -> io::Result<bool>
    requires { F.IsAlwaysCallable own_scene }
{
    let outcome = own_scene(&mut trial).and_then(|()| scenes::of_every_store(&mut trial));
    report(rt, name, &trial, outcome)
}

fn main(rt: HostRuntime) -> io::Result<()> {
    let rows = Trial::new(rt.alloc(), Row::new(), Rule::Listed(320));
    let row_well = try_store(&rt, "row", rows, scenes::row)?;
    let runs = Trial::new(rt.alloc(), Run::new(), Rule::Consecutive(512));
    let run_well = try_store(&rt, "run", runs, scenes::run)?;
    if row_well && run_well {
        println!(rt; "ok")?;
    }
    Ok(())
}
