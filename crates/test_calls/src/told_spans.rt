// Which spans the watchers of a run are told, and in which order.
use crate::calls::{Called, end_of_call, plain_inputs};
use crate::run_spans::spans_in_order;
use flow_run::CallResult;
use journal_rules::Span;
use outside_io::NoMemory;
use span_profile::{SpanList, Watch};
use std::alloc::Global;
use std::sync::Wait;
use std::thread::Threads;

// The graph of examples/log-join, which reads `t`, `u` and `v`.
const LOG_JOIN: &str = r#"{"tasks":[
    {"name":"ra","op":"read","text":"t","to":["ka"]},
    {"name":"rb","op":"read","text":"u","to":["kb"]},
    {"name":"ka","op":"keep","word":"error","to":["all"],"holds":["io"]},
    {"name":"kb","op":"keep","word":"error","to":["all"],"holds":["io"]},
    {"name":"all","op":"sort","to":["m","trim"]},
    {"name":"rc","op":"read","text":"v","to":["m"]},
    {"name":"m","op":"match","to":["who"]},
    {"name":"who","op":"tally"},
    {"name":"trim","op":"skip","n":1,"to":["more"]},
    {"name":"more","op":"ifmore","n":1,"to":["trim","short"]},
    {"name":"short","op":"module","module":"clean"}],
    "semaphores":[{"name":"io","max":2}],
    "modules":[{"name":"clean","tasks":[
    {"name":"i","op":"input","to":["u"]},
    {"name":"u","op":"uniq"}]}]}"#;

// The texts of examples/log-join.
const TEXTS: &str =
    "10 error disk|11 ok boot|12 error net| / 12 error net|13 ok login| / 10 alice|12 bob|13 carol|";

/// What is seen of the watchers of a run by so many workers: they are together told each of its spans once, each
/// watcher in the order of their ends.
pub fn log_join_tells_each_span_once<R: Threads + Wait + Sync>(
    rt: &R,
    alloc: Global,
    words: &str,
    workers: u32,
) -> Result<String, NoMemory> {
    let mut lists: Vec<Box<dyn Watch + Send>> = Vec::new(alloc);
    for _place in 0..workers {
        lists.push(Box::new(alloc, SpanList::new(alloc))?)?;
    }
    let inputs = plain_inputs(alloc, LOG_JOIN, words, TEXTS)?;
    let Called {
        outcome,
        out: _out,
        notes: _notes,
    } = end_of_call(rt, alloc, inputs, lists);
    let seen = shown_told(alloc, &outcome);
    let _code = outcome.into_code();
    seen
}

// How many runs were kept, how many spans these have, and whether the watchers were together told each once, each
// watcher its own in the order of their ends, and one that is alone all in order.
fn shown_told(alloc: Global, outcome: &CallResult) -> Result<String, NoMemory> {
    let mut spans = Vec::new(alloc);
    for run in &outcome.runs {
        spans.extend_from_slice(spans_in_order(alloc, run)?.as_slice())?;
    }
    let mut all = Vec::new(alloc);
    let mut rising = true;
    for watcher in &outcome.watchers {
        let told = told_to(alloc, watcher)?;
        rising = rising && are_rising(told.as_slice());
        all.extend_from_slice(told.as_slice())?;
    }
    let in_order = outcome.watchers.len() > 1 || all.as_slice() == spans.as_slice();
    Ok(format!(in alloc;
        "log_join_tells_each_span_once: {} run, {} spans, each told once: {}, rising: {rising}, in order: {in_order}",
        outcome.runs.len(),
        spans.len(),
        has_each_once(all.as_slice(), spans.as_slice())
    )?)
}

// What a watcher was told.
fn told_to(alloc: Global, watcher: &Box<dyn Watch + Send>) -> Result<Vec<Span>, NoMemory> {
    let mut told = Vec::new(alloc);
    for place in 0..watcher.count() {
        if let Some(span) = watcher.get(place) {
            told.push(span)?;
        }
    }
    Ok(told)
}

// Whether those of one depth, where there is a single run, are in the order of their ends.
fn are_rising(spans: &[Span]) -> bool {
    spans.iter().enumerate().all(|(place, span)| {
        let earlier = spans.iter().take(place);
        earlier
            .filter(|other| other.depth == span.depth)
            .all(|other| other.end < span.end)
    })
}

// Whether these are the spans, each once, in any order.
fn has_each_once(told: &[Span], spans: &[Span]) -> bool {
    told.len() == spans.len()
        && spans.iter().all(|span| told.iter().filter(|other| *other == span).count() == 1)
}
