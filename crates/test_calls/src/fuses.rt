// A call in which a watcher refuses a span.
use crate::calls::{COUNT, Called, end_of_call, plain_inputs};
use flow_run::CallResult;
use outside_io::NoMemory;
use span_profile::{SpanFuse, Watch};
use std::alloc::Global;
use std::sync::Wait;
use std::thread::Threads;

/// What is seen where the second of two spans is refused: no run is kept, and all watchers come back, each with how
/// many it was told.
pub fn a_blown_fuse_ends_the_call<R: Threads + Wait + Sync>(
    rt: &R,
    alloc: Global,
) -> Result<String, NoMemory> {
    let mut fuses: Vec<Box<dyn Watch + Send>> = Vec::new(alloc);
    for passed in [1, 9] {
        fuses.push(Box::new(alloc, SpanFuse::new(passed))?)?;
    }
    let inputs = plain_inputs(alloc, COUNT, "run g --workers 1", "x|y|")?;
    let Called {
        outcome,
        out: _out,
        notes: _notes,
    } = end_of_call(rt, alloc, inputs, fuses);
    let seen = shown_fuses(alloc, &outcome);
    let _code = outcome.into_code();
    seen
}

fn shown_fuses(alloc: Global, outcome: &CallResult) -> Result<String, NoMemory> {
    let code = outcome.status.code();
    let mut seen = format!(in alloc;
        "a_blown_fuse_ends_the_call: code {code}, {} runs, told",
        outcome.runs.len()
    )?;
    for watcher in &outcome.watchers {
        seen.push_str(format!(in alloc; " {}", watcher.count())?.as_str())?;
    }
    Ok(seen)
}
