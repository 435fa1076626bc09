// The inputs of calls, by what rows say.
use crate::calls::Row;
use crate::texts::{graph_of, text_of};
use crate::watchers::Handed;
use command_line::DEFAULT_WORKERS;
use outside_io::for_tests::{FailAt, MemorySink, MemoryTexts};
use outside_io::{List, NoMemory};
use std::alloc::{AllocError, Global};

// The words of a row.
fn words_of(alloc: Global, words: &str) -> Result<Vec<String>, AllocError> {
    let mut strings = Vec::new(alloc);
    if words == "-" {
        return Ok(strings);
    }
    for word in words.split(' ') {
        let word = if word == "''" { "" } else { word };
        let word = word.replace(alloc, "_", " ")?;
        strings.push(word.replace(alloc, "|", "\n")?)?;
    }
    Ok(strings)
}

// The texts that a call finds, of which these reads fail.
fn texts_of(
    alloc: Global,
    graph: &str,
    texts: &str,
    failing: List<u64>,
) -> Result<MemoryTexts, NoMemory> {
    let mut names = List::new(alloc);
    let mut held = List::new(alloc);
    names.push(List::from_slice(alloc, b"g")?)?;
    held.push(graph_of(alloc, graph)?)?;
    for (name, text) in ["t", "u", "v"].iter().zip(texts.split(" / ")) {
        if text != "-" {
            names.push(List::from_slice(alloc, name.as_bytes())?)?;
            held.push(text_of(alloc, text)?)?;
        }
    }
    if !MemoryTexts::are_named(&names, &held) {
        return Err(NoMemory);
    }
    Ok(MemoryTexts::new(alloc, names, held, failing))
}

// The calls of texts and sinks that fail, the span that is refused, and how many watchers there are.
#[derive(Drop)]
struct Failing {
    reads: List<u64>,
    puts: List<FailAt>,
    notes: List<FailAt>,
    span: u64,
    watchers: u64,
}

fn failing_of(alloc: Global, text: &str) -> Result<Failing, NoMemory> {
    let (what, numbers) = text.split_once(' ').unwrap_or((text, ""));
    let (call, taken) = numbers.split_once(' ').unwrap_or((numbers, ""));
    let at = FailAt {
        call: number_of(call),
        taken: number_of(taken),
    };
    let mut failing = Failing {
        reads: List::new(alloc),
        puts: List::new(alloc),
        notes: List::new(alloc),
        span: u64::MAX,
        watchers: 16,
    };
    match what {
        "read" => failing.reads.push(at.call)?,
        "put" => failing.puts.push(at)?,
        "note" => failing.notes.push(at)?,
        "span" => failing.span = at.call,
        "watchers" => failing.watchers = at.call,
        _ => (),
    }
    Ok(failing)
}

fn number_of(text: &str) -> u64 {
    text.parse::<u64>().unwrap_or(0)
}

// How many workers these words ask for.
fn workers_of(words: &str) -> u64 {
    match words.split_once("--workers ") {
        Some((_, rest)) => {
            let (count, _) = rest.split_once(' ').unwrap_or((rest, ""));
            number_of(count)
        }
        None => u64::from(DEFAULT_WORKERS),
    }
}

/// The inputs of a call, apart from its watchers, and what these are to be.
#[derive(Drop)]
pub struct CallInputs {
    pub words: Vec<String>,
    pub texts: MemoryTexts,
    pub out: MemorySink,
    pub notes: MemorySink,
    pub handed: Handed,
}

/// The inputs of a row's call.
pub fn inputs_of(alloc: Global, graph: &str, row: Row<'_>) -> Result<CallInputs, NoMemory> {
    let words = words_of(alloc, row.words)?;
    let Failing {
        reads,
        puts,
        notes,
        span: refused,
        watchers,
    } = failing_of(alloc, row.failing)?;
    let texts = texts_of(alloc, graph, row.texts, reads)?;
    Ok(CallInputs {
        words,
        texts,
        out: MemorySink::new(alloc, puts),
        notes: MemorySink::new(alloc, notes),
        handed: Handed {
            watchers,
            workers: workers_of(row.words),
            refused,
        },
    })
}
