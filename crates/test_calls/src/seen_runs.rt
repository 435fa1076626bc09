// What is seen of a run: how many entries its journal has, what the judge says, and what else is asked for.
use crate::pipe_starts::shown_tokens;
use legal_run::{Verdict, judge};
use nested_runs::{inner_starts, spans, starts};
use outside_io::NoMemory;
use run_frame::{FrameRun, Job};
use std::alloc::Global;
use text_tasks::TextJob;

/// What is to be seen of a run.
#[derive(Clone, Copy)]
pub enum Sight<'s> {
    /// How long its journal is.
    Length,
    /// Its totals besides.
    Totals,
    /// Besides its length which tokens the pipelines inside it started, or, where they end by a fault, whether it was a
    /// prefix of this order.
    Tokens(&'s str),
}

/// How many entries a run's journal has, what else is to be seen of it, and whether it isn't complete, or a run inside
/// it isn't.
pub fn shown_run(
    alloc: Global,
    run: &FrameRun<TextJob>,
    sight: Sight<'_>,
) -> Result<String, NoMemory> {
    let mut shown = format!(in alloc; "run of {}", run.journal.len())?;
    match sight {
        Sight::Length => (),
        Sight::Totals => shown.push_str(shown_totals(alloc, run)?.as_str())?,
        Sight::Tokens(order) => shown.push_str(shown_tokens(alloc, run, order)?.as_str())?,
    }
    if !is_complete(alloc, run)? {
        shown.push_str(" that isn't complete")?;
    }
    Ok(shown)
}

// How many starts a run has, how many the runs inside it have, and how many spans there are in all.
fn shown_totals(alloc: Global, run: &FrameRun<TextJob>) -> Result<String, NoMemory> {
    Ok(format!(in alloc;
        " with {} starts, {} inside it and {} spans",
        starts(run),
        inner_starts(run),
        spans(run)
    )?)
}

// Whether the judge finds the journal of a run complete, and those of the runs inside it, at each depth.
#[cycle(inner_verdicts)]
fn is_complete(alloc: Global, run: &FrameRun<TextJob>) -> Result<bool, NoMemory> {
    let verdict = judge(alloc, run.job.net(), run.job.limit(), &run.journal)?;
    if verdict != Verdict::Complete {
        return Ok(false);
    }
    for row in run.inner.as_slice() {
        if !is_complete(alloc, &row.run)? {
            return Ok(false);
        }
    }
    Ok(true)
}
