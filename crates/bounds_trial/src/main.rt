// Checks the bounds and indices of all schemas, and prints a line for each schema, with the first failure if there is one.
#![tactic(auto)]

mod checks;
mod laws;
mod numbers;

use checks::Checks;
use numbers::any_double;
use random::Random;
use schema::Schema;
use std::io;

// How many random numbers are tried at each schema.
const NUMBERS: u32 = 50_000;

// Checks one schema: every bound, a few past either end, and random numbers.
fn try_schema(schema: Schema) -> Checks {
    let mut checks = Checks::new(schema);
    laws::ends(&mut checks);
    laws::nothing(&mut checks);
    let (low, high) = schema.index_range();
    for index in low.saturating_sub(3)..=high.saturating_add(3) {
        laws::boundary(&mut checks, index);
    }
    let mut random = Random::new(88_172_645_463_325_252);
    for _ in 0..NUMBERS {
        let value = any_double(&mut random);
        if value > 0.0 {
            laws::number(&mut checks, value);
        }
    }
    checks
}

fn main(rt: HostRuntime) -> io::Result<()> {
    // all schemas, and numbers of none; a refusal is printed by its published number
    for value in (-4..=8).chain([i8::MIN, -5, 9, i8::MAX]) {
        match Schema::new(value) {
            Ok(schema) => println!(rt; "schema {value}: {}", try_schema(schema))?,
            Err(fault) => println!(rt; "schema {value}: refusal {}", fault.number())?,
        }
    }
    Ok(())
}
