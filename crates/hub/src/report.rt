// What is printed of a plug.
ghost use Rattle.std.specs.Int.{div_ceil};
ghost use Rattle.std.specs.Prelude.{◌≡◌, ◌≢◌, ◌*◌, ◌≤◌, [], All, Contains, map, if◌then◌else◌, nat_lt};

use crate::chosen::Buckets;
use crate::filing::Side;
use crate::plugs::Plug;
use crate::written::{FormError, pairs_of, write_out};
use schema::{Schema, positive_upper_bound};
use std::io;

// How wide the bar of the highest count is.
const WIDEST: u8 = 40;

// How wide the bar of a count is where the highest is `most`: its share of 40, rounded up. `as`, since a share is at most
// 40.
fn bar_width(count: u64, most: u64) -> usize
    ensures width { result ≡ (if nat_lt count most then div_ceil (count * 40) most else 40) }
    ensures fits { result ≤ 40 }
{
    if count >= most {
        return usize::from(WIDEST);
    }
    let share = u128::from(count) * u128::from(WIDEST);
    share.div_ceil(u128::from(most)) as usize
}

// The highest count, 0 where there is none.
fn highest_count(pairs: &[(i32, u64)]) -> u64
    ensures highest { All (λ p. p.1 ≤ result) pairs.now }
    ensures counted { pairs.now ≢ [] → Contains (map (λ p. p.1) pairs.now) result }
    ensures none { pairs.now ≡ [] → result ≡ 0 }
{
    pairs.iter().map(|pair| pair.1).max().unwrap_or(0)
}

// A line for each bucket: its index, its count with a bar, and its bound.
pub fn print_chart(
    rt: &HostRuntime,
    schema: Schema,
    side: Side,
    pairs: &[(i32, u64)],
) -> io::Result<()> {
    let most = highest_count(pairs);
    // in other words than a reading's answer has
    let reach = match side {
        Side::Positive => "up to ",
        Side::Negative => "down to -",
    };
    for &(index, count) in pairs {
        let bound = positive_upper_bound(schema, index);
        let width = bar_width(count, most);
        let rest = usize::from(WIDEST) - width;
        println!(rt;
            "  {index:>7} {count:>4} {:#<width$}{:<rest$} {reach}{bound} A",
            "", ""
        )?;
    }
    Ok(())
}

// The chart of a side that lists something, and its spans and deltas.
fn print_side(rt: &HostRuntime, schema: Schema, side: Side, store: &Buckets) -> io::Result<()> {
    let pairs = pairs_of(rt.alloc(), store)?;
    if pairs.is_empty() {
        return Ok(());
    }
    println!(rt; "  {side}:")?;
    print_chart(rt, schema, side, &pairs)?;
    match write_out(rt.alloc(), store) {
        Ok(written) => println!(rt; "  {written}"),
        Err(FormError::Refused(fault)) => println!(rt; "  not written, {fault}"),
        Err(FormError::NoMemory(error)) => Err(error.into()),
    }
}

pub fn print_plug(rt: &HostRuntime, name: &str, plug: &Plug) -> io::Result<()> {
    let settings = plug.settings();
    let readings = plug.readings;
    let zeros = plug.zeros;
    println!(rt; "{name}, {settings}: readings {readings}, zeros {zeros}")?;
    match plug.load() {
        Some(bound) => println!(rt; "  adds {bound} A to the load")?,
        None => println!(rt; "  adds nothing to the load")?,
    }
    print_side(rt, plug.schema, Side::Positive, &plug.positive)?;
    print_side(rt, plug.schema, Side::Negative, &plug.negative)
}
