// How rounds end.
ghost use Rattle.std.specs.Prelude.{◌≡◌, ◌≢◌, [], true, Err, None, IfOk, IsOk};
ghost use Rattle.call_status.specs.Statuses.{status_after};
ghost use Rattle.flow_run.specs.Answers.{IsAfterRun};
ghost use Rattle.flow_run.specs.RoundTexts.{last_reason};

use super::call::Ended;
use call_status::Status;
use nested_runs::{Reason, reason_of};
use outside_io::{List, NoMemory, SinkFault};
use run_frame::FrameRun;
use std::alloc::Global;
use text_tasks::TextJob;

/// The status after rounds, by whether they were all run, why the last came to its end, and how writing ended.
pub(crate) fn status_of_rounds(
    whole: bool,
    reason: Reason,
    written: Result<(), SinkFault>,
) -> Status
    ensures after { IsAfterRun reason result }
    ensures all { result ≢ Status.NoMemory → whole ≡ true }
    ensures done { result ≡ Status.Done → IsOk written }
    ensures write_fault { result ≡ Status.WriteFault → written ≡ Err SinkFault.Failed }
    ensures no_memory { written ≡ Err SinkFault.NoMemory → result ≡ Status.NoMemory }
{
    match written {
        _ if !whole => Status::NoMemory,
        Ok(()) => Status::after(reason),
        Err(SinkFault::Failed) => unwritten(reason),
        Err(SinkFault::NoMemory) => Status::NoMemory,
    }
}

// The status of a run whose report couldn't be written: that a run was cut short is reported before that.
fn unwritten(reason: Reason) -> Status
    ensures fine { reason ≡ Reason.Fine → result ≡ Status.WriteFault }
    ensures cut { reason ≢ Reason.Fine → result ≡ status_after reason }
    ensures after { IsAfterRun reason result }
{
    match reason {
        Reason::Fine => Status::WriteFault,
        reason => Status::after(reason),
    }
}

/// Why the last of these rounds came to its end.
pub(crate) fn last_reason(alloc: Global, runs: &[FrameRun<TextJob>]) -> Result<Reason, NoMemory>
    ensures { IfOk result (λ reason. reason ≡ last_reason runs.now) }
{
    match runs.last() {
        Some(run) => reason_of(alloc, run),
        None => Ok(Reason::Fine),
    }
}

/// An end after these runs, which come to nothing else.
pub(crate) fn after_runs(runs: List<FrameRun<TextJob>>, status: Status, written: bool) -> Ended
    ensures { result ≡ record
        { status = status; runs = runs; conclusion = None; written = written } }
{
    Ended {
        status,
        runs,
        conclusion: None,
        written,
    }
}
