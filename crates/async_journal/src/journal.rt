// The journal of a run of async tasks.
ghost use Rattle.std.specs.Prelude.{◌≡◌, length, map, IfOk, Some, slice_get};
ghost use Rattle.journal_rules.specs.declared.entry.Entry.TheVariants.{Start};
ghost use Rattle.async_journal.specs.RunJournals.{cause_after, end_gives, named_by, run_journal};
ghost use Rattle.async_journal.specs.RunNets.{run_net};
ghost use Rattle.async_journal.specs.WholeJournals.{IsFinishedHistory, IsWholeJournal};
ghost use Rattle.async_journal.specs.inside.Tables.{IsTableOf, is_of_kind, entry_by, noted_part};

use crate::places::{EventKind, event_places, noted_place};
use async_tasks::{AddRow, TaskEvent};
use journal_rules::{Cause, Entry, Journal, Part};
use outside_io::{List, NoMemory};
use std::alloc::Global;
use task_graph::Net;

/// The journal of these events, on the net of these adds: an entry for each, at its index. Of a finished history it is
/// legal, each start finds what it may, and it is that of a finished run of the net.
pub fn journal_of_events(
    alloc: Global,
    net: &Net,
    adds: &[AddRow],
    events: &[TaskEvent],
) -> Result<Journal, NoMemory>
    ensures journal { IfOk result
        (λ journal. journal ≡ run_journal net.now adds.now events.now) }
    ensures whole { IfOk result (λ journal. net.now ≡ run_net adds.now
        → IsFinishedHistory adds.now events.now
        → IsWholeJournal net.now (length adds.now) journal) }
{
    let starts = event_places(alloc, adds.len(), events, EventKind::Starts)?;
    let ends = event_places(alloc, adds.len(), events, EventKind::Ends)?;
    entries_of(alloc, net, adds, &starts, &ends, events)
}

// The entries of these events, by the tables of starts and ends.
fn entries_of(
    alloc: Global,
    net: &Net,
    adds: &[AddRow],
    starts: &[Option<u64>],
    ends: &[Option<u64>],
    events: &[TaskEvent],
) -> Result<Journal, NoMemory>
    ensures { IfOk result (λ journal. journal
        ≡ map (entry_by net.now adds.now starts.now ends.now) events.now) }
{
    let mut journal = List::with_room(alloc, events.len())?;
    for event in events {
        let entry = entry_of(alloc, net, adds, starts, ends, *event)?;
        journal.push(entry)?;
    }
    Ok(journal)
}

fn entry_of(
    alloc: Global,
    net: &Net,
    adds: &[AddRow],
    starts: &[Option<u64>],
    ends: &[Option<u64>],
    event: TaskEvent,
) -> Result<Entry, NoMemory>
    ensures { IfOk result
        (λ entry. entry ≡ entry_by net.now adds.now starts.now ends.now event) }
{
    match event {
        TaskEvent::Started(task) => start_entry(alloc, ends, task, named_by(adds, task)),
        TaskEvent::Ended(task) => Ok(Entry::End {
            start: noted_place(starts, task),
            gives: List::from_slice(alloc, end_gives(net, task))?,
            inner: false,
        }),
    }
}

// The tasks that a task's add names.
fn named_by(adds: &[AddRow], task: u32) -> &[u32]
    ensures { result.now ≡ named_by (slice_get adds.now task) }
{
    match adds.get(task as usize) {
        Some(row) => row.after.as_slice(),
        None => &[],
    }
}

// The start of a task after these tasks.
fn start_entry(
    alloc: Global,
    ends: &[Option<u64>],
    task: u32,
    after: &[u32],
) -> Result<Entry, NoMemory>
    ensures { IfOk result
        (λ entry. entry ≡ Start task (cause_after after.now) (map (noted_part ends.now) after.now)) }
{
    let cause = cause_after(after);
    let ins = parts_of(alloc, ends, after)?;
    Ok(Entry::Start { task, cause, ins })
}

fn cause_after(after: &[u32]) -> Cause
    ensures { result ≡ cause_after after.now }
{
    match after {
        [] => Cause::Source,
        [_, ..] => Cause::Strong,
    }
}

// What the start of a task after these tasks finds.
fn parts_of(alloc: Global, ends: &[Option<u64>], after: &[u32]) -> Result<List<Part>, NoMemory>
    ensures { IfOk result (λ ins. ins ≡ map (noted_part ends.now) after.now) }
{
    let mut ins = List::with_room(alloc, after.len())?;
    for before in after {
        ins.push(Part::From(noted_place(ends, *before)))?;
    }
    Ok(ins)
}

// The edges that the end of a task gives.
fn end_gives(net: &Net, task: u32) -> &[u32]
    ensures { result.now ≡ end_gives net.now task }
{
    if (task as usize) < net.tasks().len() {
        net.out_edges(task)
    } else {
        &[]
    }
}
