// The spans of runs, with those of the runs inside them: how many there are, and which.
use journal_rules::{Entry, Span};
use nested_runs::spans;
use outside_io::NoMemory;
use run_frame::{FrameRun, InnerRow};
use std::alloc::Global;
use text_tasks::TextJob;

/// How many spans these runs have.
pub fn count_spans(runs: &[FrameRun<TextJob>]) -> u64 {
    let mut total: u64 = 0;
    for run in runs {
        total = total.saturating_add(spans(run));
    }
    total
}

/// The spans of a run in the order of their ends, each behind those of the run that its start made.
pub fn spans_in_order(alloc: Global, run: &FrameRun<TextJob>) -> Result<Vec<Span>, NoMemory> {
    let mut spans = Vec::new(alloc);
    add_spans(run, 0, &mut spans)?;
    Ok(spans)
}

// Adds the spans of a run that is inside so many.
#[cycle(run_spans)]
fn add_spans(run: &FrameRun<TextJob>, depth: u32, spans: &mut Vec<Span>) -> Result<(), NoMemory> {
    let journal = run.journal.as_slice();
    for (place, entry) in journal.iter().enumerate() {
        let end = place as u64;
        if let Some(start) = start_of(entry) {
            add_inner_spans(run.inner.as_slice(), end, depth.saturating_add(1), spans)?;
            spans.push(Span {
                depth,
                task: task_at(journal, start),
                start,
                end,
            })?;
        }
    }
    Ok(())
}

// Adds those of the run that the start made which the entry at this place closed.
#[cycle(run_spans)]
fn add_inner_spans(
    rows: &[InnerRow<TextJob>],
    place: u64,
    depth: u32,
    spans: &mut Vec<Span>,
) -> Result<(), NoMemory> {
    for row in rows {
        if row.place == place {
            add_spans(&row.run, depth, spans)?;
        }
    }
    Ok(())
}

// The place of the start that an entry closes, if it closes one.
fn start_of(entry: &Entry) -> Option<u64> {
    match entry {
        Entry::End { start, .. } | Entry::Fault { start, .. } => Some(*start),
        Entry::Start { .. } | Entry::Drop { .. } => None,
    }
}

// The task that started at a place. Where none did it is the greatest `u32`, which no graph has.
fn task_at(journal: &[Entry], place: u64) -> u32 {
    match journal.get(place as usize) {
        Some(Entry::Start { task, .. }) => *task,
        _ => u32::MAX,
    }
}
