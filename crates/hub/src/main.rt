// The load recorder of a home hub. Plugs report their inrush currents in amperes; before the hub switches a plug
// on, it adds the bound of the highest occupied bucket of that plug's histogram to the running load.
// The program reads a log from standard input, files each reading under its plug and says what it did. HELP has
// the form of the log.
#![tactic(auto)]

mod chosen;
mod filing;
mod hubs;
mod log;
mod plugs;
mod report;
mod written;

use filing::Side;
use hubs::Hub;
use log::{Entry, LineFault, parse_line};
use plugs::Settings;
use report::{print_chart, print_plug};
use std::io::{BufRead, BufReader};
use std::{env, io};
use written::{FormError, Written, read_back};

const HELP: &str = "\
hub reads a log of inrush currents from standard input and says what it did. A line of the log is one of these:
  plug NAME [row|run] [schema N]   a plug, the store of its buckets (row) and its schema (3), from -4 to 8
  NAME VALUE                       a reading in amperes; a plug that no line declared is a row at schema 3
  spans NAME SPANS / DELTAS        buckets as another hub wrote them: OFFSET:LENGTH and whole numbers
  # TEXT                           a comment, which may end any line
";

// `rt`, the handle that permits printing, goes through the calls beside the hub, as handles do.
fn declare(rt: &HostRuntime, hub: &mut Hub, name: &str, settings: Settings) -> io::Result<()> {
    hub.declare(name, settings)?;
    println!(rt; "{name}: {settings}")
}

fn file(rt: &HostRuntime, hub: &mut Hub, name: &str, value: f64) -> io::Result<()> {
    if !hub.knows(name) {
        declare(rt, hub, name, Settings::default())?;
    }
    match hub.file(name, value) {
        Some(Ok(filed)) => println!(rt; "{name}: {value} A, {filed}"),
        Some(Err(fault)) => println!(rt; "{name}: {value} A, not filed, {fault}"),
        None => Ok(()),
    }
}

fn read_spans(rt: &HostRuntime, hub: &Hub, name: &str, written: &Written) -> io::Result<()> {
    match read_back(rt.alloc(), written) {
        Ok(pairs) => {
            let count = pairs.len();
            println!(rt; "{name}: spans and deltas of {count} buckets")?;
            print_chart(rt, hub.schema_of(name), Side::Positive, &pairs)
        }
        Err(FormError::Refused(fault)) => {
            println!(rt; "{name}: spans and deltas are damaged, {fault}")
        }
        Err(FormError::NoMemory(error)) => Err(error.into()),
    }
}

fn record(rt: &HostRuntime, hub: &mut Hub, number: u64, entry: Entry) -> io::Result<()> {
    match entry {
        Entry::Nothing => Ok(()),
        Entry::Declared { name, settings } => {
            if hub.knows(name) {
                let fault = LineFault::Again(name);
                return println!(rt; "line {number}: {fault}");
            }
            declare(rt, hub, name, settings)
        }
        Entry::Reading { name, value } => file(rt, hub, name, value),
        Entry::Spans { name, written } => read_spans(rt, hub, name, &written),
    }
}

fn read_line(rt: &HostRuntime, hub: &mut Hub, number: u64, bytes: &[u8]) -> io::Result<()> {
    let Ok(text) = std::str::from_utf8(bytes) else {
        return println!(rt; "line {number}: not a text in UTF-8");
    };
    match parse_line(rt.alloc(), text) {
        Ok(entry) => record(rt, hub, number, entry),
        Err(fault) => println!(rt; "line {number}: {fault}"),
    }
}

fn read_log(rt: &HostRuntime) -> io::Result<()> {
    let heap = rt.alloc();
    let mut hub = Hub::new(heap);
    let lines = BufReader::new(heap, rt.stdin())?.split(heap, b'\n');
    for (number, line) in (1..=u64::MAX).zip(lines) {
        read_line(rt, &mut hub, number, &line?)?;
    }
    print_hub(rt, &hub)
}

// Each plug, by name.
fn print_hub(rt: &HostRuntime, hub: &Hub) -> io::Result<()> {
    for (name, plug) in &hub.plugs {
        println!(rt; "")?;
        print_plug(rt, name, plug)?;
    }
    Ok(())
}

// With an argument, as --help, the program says what it reads: it takes no other.
fn main(rt: HostRuntime) -> io::Result<()> {
    if env::args(&rt)?.count() > 1 {
        return print!(rt; "{HELP}");
    }
    read_log(&rt)
}
