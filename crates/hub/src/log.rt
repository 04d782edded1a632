// Lines of the log.
use crate::chosen::StoreKind;
use crate::plugs::Settings;
use crate::written::Written;
use schema::{Schema, SchemaFault};
use std::alloc::{AllocError, Global};
use thiserror::Error;

// What a line of the log says. A line that says nothing is one of four kinds, matched beside the others, so it is
// a case here and no Option around the rest.
#[derive(Drop)]
pub enum Entry<'a> {
    // it is blank or a comment
    Nothing,
    // the plug keeps its buckets so
    Declared { name: &'a str, settings: Settings },
    // a current in amperes
    Reading { name: &'a str, value: f64 },
    // buckets of the plug, as another hub wrote them
    Spans { name: &'a str, written: Written },
}

// Why a line is not read, with the word that shows it.
#[derive(Clone, Copy, Debug, Error)]
pub enum LineFault<'a> {
    #[error("{0:?}: no plug is named after it")]
    NoName(&'a str),
    #[error("{0:?}: no value follows it")]
    NoValue(&'a str),
    #[error("{0:?}: a word too many")]
    Extra(&'a str),
    #[error("{0:?}: not a number")]
    NoNumber(&'a str),
    #[error("{0:?}: no option of a plug, which are row, run and schema N")]
    NoOption(&'a str),
    #[error("{0:?}: not a whole number of 8 bits")]
    NoSchema(&'a str),
    #[error("{0:?}: {1}")]
    Refused(&'a str, SchemaFault),
    #[error("{0:?}: not a span OFFSET:LENGTH")]
    NoSpan(&'a str),
    #[error("{0:?}: not a whole number of 64 bits")]
    NoDelta(&'a str),
    #[error("{0:?}: no / between its spans and its deltas")]
    NoSlash(&'a str),
    #[error("{0:?}: declared already")]
    Again(&'a str),
    #[error("\"\": no memory is left")]
    NoMemory(#[from(alloc)] AllocError),
}

// What the line says.
pub fn parse_line(heap: Global, line: &str) -> Result<Entry<'_>, LineFault<'_>> {
    let text = line.split_once('#').map_or(line, |(text, _)| text);
    let words: Vec<&str> = text.split_whitespace().collect(heap)?;
    match words.as_slice() {
        [] => Ok(Entry::Nothing),
        ["plug", rest @ ..] => parse_plug(rest),
        ["spans", rest @ ..] => parse_spans(heap, rest),
        [name, rest @ ..] => parse_reading(name, rest),
    }
}

// A reading, by what follows the plug's name.
fn parse_reading<'a>(name: &'a str, words: &[&'a str]) -> Result<Entry<'a>, LineFault<'a>> {
    match words {
        [] => Err(LineFault::NoValue(name)),
        [word] => {
            let value = word.parse().map_err(|_| LineFault::NoNumber(word))?;
            Ok(Entry::Reading { name, value })
        }
        [_, word, ..] => Err(LineFault::Extra(word)),
    }
}

// A plug's declaration, by what follows the word `plug`.
fn parse_plug<'a>(words: &[&'a str]) -> Result<Entry<'a>, LineFault<'a>> {
    let [name, options @ ..] = words else {
        return Err(LineFault::NoName("plug"));
    };
    let usual = Settings::default();
    let (kind, options) = match options {
        ["row", rest @ ..] => (StoreKind::Row, rest),
        ["run", rest @ ..] => (StoreKind::Run, rest),
        _ => (usual.kind, options),
    };
    let schema = match options {
        [] => usual.schema,
        ["schema", word] => parse_schema(name, word)?,
        [word, ..] => return Err(LineFault::NoOption(word)),
    };
    let settings = Settings { kind, schema };
    Ok(Entry::Declared { name, settings })
}

// The schema of the plug, by its number.
fn parse_schema<'a>(name: &'a str, word: &'a str) -> Result<Schema, LineFault<'a>> {
    let number = word.parse().map_err(|_| LineFault::NoSchema(word))?;
    Schema::new(number).map_err(|fault| LineFault::Refused(name, fault))
}

// Spans and deltas, by what follows the word `spans`.
fn parse_spans<'a>(heap: Global, words: &[&'a str]) -> Result<Entry<'a>, LineFault<'a>> {
    let [name, rest @ ..] = words else {
        return Err(LineFault::NoName("spans"));
    };
    let Some(slash) = rest.iter().position(|word| *word == "/") else {
        return Err(LineFault::NoSlash(name));
    };
    let spans = parse_list(heap, &rest[..slash], parse_span)?;
    let deltas = parse_list(heap, &rest[slash + 1..], parse_delta)?;
    let written = Written { spans, deltas };
    Ok(Entry::Spans { name, written })
}

// An item for each word. By `push`, since `try_collect` asks a second time for memory that was refused.
fn parse_list<'a, T: Drop, F: Fn(&'a str) -> Result<T, LineFault<'a>>>(
    heap: Global,
    words: &[&'a str],
    parse: F,
) -> Result<Vec<T>, LineFault<'a>>
    requires { F.IsAlwaysCallable parse }
{
    let mut items = Vec::new(heap);
    for word in words {
        items.push(parse(word)?)?;
    }
    Ok(items)
}

// The offset and the length of a span.
fn parse_span(word: &str) -> Result<(i32, u32), LineFault<'_>> {
    let fault = LineFault::NoSpan(word);
    let (offset, length) = word.split_once(':').ok_or(fault)?;
    let offset = offset.parse().map_err(|_| fault)?;
    let length = length.parse().map_err(|_| fault)?;
    Ok((offset, length))
}

fn parse_delta(word: &str) -> Result<i64, LineFault<'_>> {
    word.parse().map_err(|_| LineFault::NoDelta(word))
}
