// Why a run came to its end.
ghost use Rattle.std.specs.Prelude.{◌≡◌, ◌∷◌, [], IfOk, map, unwrap_or};
ghost use Rattle.journal_rules.specs.Counts.{start_at};
ghost use Rattle.run_frame.specs.NestedRule.{journal_of};
ghost use Rattle.nested_runs.specs.Reasons.{below, faulted, reason_at, run_reason, unfaulted};
ghost use Rattle.nested_runs.specs.inside.InnerReasons.{inner_reason_at, row_reason};

use super::faults::{Faulted, first_fault, first_stuck, is_limited};
use journal_rules::{Entry, Why};
use outside_io::{List, NoMemory};
use run_frame::{FrameRun, InnerRow, Job};
use std::alloc::Global;

/// Why a run came to its end.
#[derive(Drop)]
pub enum Reason {
    /// Nothing was cut short.
    Fine,
    /// The first fault, with the tasks that lead to it: of this run, of the run inside it that it made, and so on.
    Fault(List<u32>, Why),
    /// Releases were dropped at a limit, with the tasks that lead to the run, and its limit.
    Limit(List<u32>, u64),
    /// A task waited for a unit that never came, with the tasks that lead to it.
    Stuck(List<u32>),
}

/// Why a run came to its end: the first Fault; else the limit, where a release was dropped at it; else the first
/// release that was dropped for want of a unit. Where the Fault is that of a run inside, that run's reason is returned.
#[cycle(reasons)]
pub fn reason_of<J: Job>(alloc: Global, run: &FrameRun<J>) -> Result<Reason, NoMemory>
    ensures { IfOk result (λ reason. reason ≡ run_reason J.meaning run.now) }
{
    let journal = run.journal.as_slice();
    match first_fault(journal) {
        Some(fault) => fault_reason(alloc, run, fault),
        None => unfaulted(alloc, run.job.limit(), journal),
    }
}

// The reason of a run that has a Fault.
#[cycle(reasons)]
fn fault_reason<J: Job>(
    alloc: Global,
    run: &FrameRun<J>,
    fault: Faulted,
) -> Result<Reason, NoMemory>
    ensures { IfOk result
        (λ reason. reason
        ≡ faulted (unwrap_or (start_at (journal_of run.now) fault.start) 0) fault.why
        (inner_reason_at J.meaning run.now fault.place)) }
{
    let task = started(run.journal.as_slice(), fault.start);
    if fault.why == Why::Inner {
        if let Some(reason) = inner_reason(alloc, run.inner.as_slice(), fault.place)? {
            return below(alloc, task, reason);
        }
    }
    Ok(Reason::Fault(alone(alloc, task)?, fault.why))
}

// The reason of the first of these runs with this index in the journal.
#[cycle(reasons)]
fn inner_reason<J: Job>(
    alloc: Global,
    rows: &[InnerRow<J>],
    place: u64,
) -> Result<Option<Reason>, NoMemory>
    ensures { IfOk result
        (λ reason. reason ≡ reason_at (map (row_reason J.meaning) rows.now) place) }
{
    for row in rows {
        if row.place == place {
            return Ok(Some(reason_of(alloc, &row.run)?));
        }
    }
    Ok(None)
}

// Why a run without a fault came to its end.
fn unfaulted(alloc: Global, limit: u64, journal: &[Entry]) -> Result<Reason, NoMemory>
    ensures { IfOk result (λ reason. reason ≡ unfaulted limit journal.now) }
{
    if is_limited(journal) {
        return Ok(Reason::Limit(List::new(alloc), limit));
    }
    match first_stuck(journal) {
        Some(task) => Ok(Reason::Stuck(alone(alloc, task)?)),
        None => Ok(Reason::Fine),
    }
}

// The task of the start at an index of the journal, and 0 where there is none.
fn started(journal: &[Entry], place: u64) -> u32
    ensures { result ≡ unwrap_or (start_at journal.now place) 0 }
{
    match journal.get(place as usize) {
        Some(Entry::Start { task, .. }) => *task,
        _ => 0,
    }
}

// The reason of a run that a task made, from that task on.
fn below(alloc: Global, task: u32, reason: Reason) -> Result<Reason, NoMemory>
    ensures { IfOk result (λ made. made ≡ below task reason) }
{
    Ok(match reason {
        Reason::Fine => Reason::Fine,
        Reason::Fault(path, why) => Reason::Fault(behind(alloc, task, &path)?, why),
        Reason::Limit(path, limit) => Reason::Limit(behind(alloc, task, &path)?, limit),
        Reason::Stuck(path) => Reason::Stuck(behind(alloc, task, &path)?),
    })
}

// A path of one task.
fn alone(alloc: Global, task: u32) -> Result<List<u32>, NoMemory>
    ensures { IfOk result (λ path. path ≡ task ∷ []) }
{
    List::from_slice(alloc, &[task])
}

// A path behind a task.
fn behind(alloc: Global, task: u32, path: &List<u32>) -> Result<List<u32>, NoMemory>
    ensures { IfOk result (λ longer. longer ≡ task ∷ path.now) }
{
    let mut longer = alone(alloc, task)?;
    longer.add_all(path.as_slice())?;
    Ok(longer)
}
