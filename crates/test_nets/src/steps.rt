// Steps of a run, what a machine answers to them, and what the judge says of their journal.
ghost use Rattle.std.specs.Prelude.{◌≡◌};

use journal_rules::{Cause, DropWhy, Entry, Why};
use legal_run::{Verdict, judge};
use net_machine::{Machine, MachineError};
use outside_io::{List, NoMemory};
use std::alloc::Global;
use task_graph::Net;

/// A step that a machine is asked for.
#[derive(Clone, Copy)]
pub(crate) enum Step<'g> {
    /// A start of a task by a release.
    Start(u32, Cause),
    /// An end of the start at an index, which gives these edges.
    End(u64, &'g [u32]),
    /// An end of a nested task.
    InnerEnd(u64, &'g [u32]),
    /// A fault of the start at an index.
    Fault(u64, Why),
    /// A drop of a release.
    Drop(u32, Cause, DropWhy),
}

/// Asks for a step.
pub(crate) fn ask(machine: &mut Machine, step: Step<'_>) -> Result<u64, MachineError>
    ensures { machine.new.net ≡ machine.old.net }
{
    match step {
        Step::Start(task, cause) => machine.start(task, cause),
        Step::End(start, gives) => machine.end(start, gives, false),
        Step::InnerEnd(start, gives) => machine.end(start, gives, true),
        Step::Fault(start, why) => machine.fault(start, why),
        Step::Drop(task, cause, why) => machine.drop_release(task, cause, why),
    }
}

/// What the judge says of the journal of these steps. What a start finds is left out, since the judge doesn't look at
/// it.
pub(crate) fn judged(
    alloc: Global,
    net: &Net,
    limit: u64,
    steps: &[Step<'_>],
) -> Result<Verdict, NoMemory> {
    let mut journal = List::new(alloc);
    for step in steps {
        journal.push(entry_of(alloc, *step)?)?;
    }
    judge(alloc, net, limit, &journal)
}

fn entry_of(alloc: Global, step: Step<'_>) -> Result<Entry, NoMemory> {
    match step {
        Step::Start(task, cause) => Ok(Entry::Start {
            task,
            cause,
            ins: List::new(alloc),
        }),
        Step::End(start, gives) => Ok(Entry::End {
            start,
            gives: List::from_slice(alloc, gives)?,
            inner: false,
        }),
        Step::InnerEnd(start, gives) => Ok(Entry::End {
            start,
            gives: List::from_slice(alloc, gives)?,
            inner: true,
        }),
        Step::Fault(start, why) => Ok(Entry::Fault { start, why }),
        Step::Drop(task, cause, why) => Ok(Entry::Drop { task, cause, why }),
    }
}
