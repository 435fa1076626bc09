// Which tokens the serial pipes of a run's pipelines start, in the order of the journals.
use journal_rules::Entry;
use outside_io::NoMemory;
use pipe_lines::PipeSpec;
use run_frame::FrameRun;
use std::alloc::Global;
use text_tasks::{Item, TextJob};

/// The tokens of each serial pipe of the pipelines that the run's tasks open. How far the pipes come in a run with a
/// fault depends on the order of its steps: of these it is seen only whether they start a prefix of this order, or,
/// where it is empty, of what the first pipe starts.
pub fn shown_tokens(
    alloc: Global,
    run: &FrameRun<TextJob>,
    order: &str,
) -> Result<String, NoMemory> {
    let mut shown = String::new(alloc);
    for row in run.inner.as_slice() {
        if let TextJob::Pipe(job) = &*row.run.job {
            add_pipes(alloc, &mut shown, job.spec(), &row.run, order)?;
        }
    }
    Ok(shown)
}

fn add_pipes(
    alloc: Global,
    shown: &mut String,
    spec: &PipeSpec,
    run: &FrameRun<TextJob>,
    order: &str,
) -> Result<(), NoMemory> {
    let pipes = spec.serial.len();
    let first = started_in(alloc, run, pipes, 0)?;
    let wanted = if order.is_empty() {
        first.as_str()
    } else {
        order
    };
    for (pipe, is_serial) in spec.serial.iter().enumerate() {
        if *is_serial {
            let tokens = started_in(alloc, run, pipes, pipe)?;
            let is_cut = has_fault(run) && (pipe > 0 || !order.is_empty());
            add_pipe(
                shown,
                tokens.as_str(),
                is_cut && is_prefix(tokens.as_str(), wanted),
            )?;
        }
    }
    Ok(())
}

/// Adds the tokens that a serial pipe starts, or that they are a prefix.
pub fn add_pipe(shown: &mut String, tokens: &str, is_prefix: bool) -> Result<(), NoMemory> {
    if is_prefix {
        shown.push_str(", a prefix")?;
    } else {
        shown.push_str(", tokens")?;
        shown.push_str(tokens)?;
    }
    Ok(())
}

fn has_fault(run: &FrameRun<TextJob>) -> bool {
    let journal = run.journal.as_slice();
    journal
        .iter()
        .any(|entry| matches!(entry, Entry::Fault { .. }))
}

// Whether the tokens of one text are the first of those of the other, where a space is before each.
fn is_prefix(front: &str, all: &str) -> bool {
    match all.strip_prefix(front) {
        Some(rest) => rest.is_empty() || rest.starts_with(' '),
        None => false,
    }
}

// The tokens of a pipe's starts that signalled an edge when they ended, with a space before each.
fn started_in(
    alloc: Global,
    run: &FrameRun<TextJob>,
    pipes: usize,
    pipe: usize,
) -> Result<String, NoMemory> {
    let mut tokens = String::new(alloc);
    for (place, entry) in run.journal.as_slice().iter().enumerate() {
        if starts_in(entry, pipes, pipe) {
            if let Some(item) = ended_with(run, place as u64) {
                tokens.push_str(format!(in alloc; " {}", item.token())?.as_str())?;
            }
        }
    }
    Ok(tokens)
}

// Whether an entry is the start of a cell of a pipe.
fn starts_in(entry: &Entry, pipes: usize, pipe: usize) -> bool {
    match entry {
        Entry::Start { task, .. } => (*task as usize).checked_rem(pipes) == Some(pipe),
        _ => false,
    }
}

// What a start ended with, if it signalled an edge.
fn ended_with(run: &FrameRun<TextJob>, start: u64) -> Option<&Item> {
    let entries = run.journal.as_slice();
    let end = entries.iter().position(|entry| signals(entry, start))?;
    run.value(end as u64)
}

// Whether an entry ends this start and signals an edge.
fn signals(entry: &Entry, start: u64) -> bool {
    match entry {
        Entry::End {
            start: closed,
            gives,
            ..
        } => *closed == start && !gives.is_empty(),
        _ => false,
    }
}
