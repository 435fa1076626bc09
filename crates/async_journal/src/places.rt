// At which index of the events each task was started and ended.
ghost use Rattle.std.specs.Prelude.{◌≡◌, ◌<◌, length, replicate, None, IfOk, slice_get};
ghost use Rattle.async_journal.specs.inside.Tables.{IsTableOf, is_of_kind, noted, noted_event, noted_place, task_if};

use async_tasks::TaskEvent;
use outside_io::NoMemory;
use std::alloc::Global;

/// Starts, or ends.
#[derive(Clone, Copy)]
pub enum EventKind {
    Starts,
    Ends,
}

/// Of each task the index of its first event of a kind.
#[tactic(auto, using(crate::proofs::Tables::no_events, crate::proofs::Tables::all_events))]
pub fn event_places(
    alloc: Global,
    tasks: usize,
    events: &[TaskEvent],
    kind: EventKind,
) -> Result<Vec<Option<u64>>, NoMemory>
    ensures { IfOk result
        (λ places. IsTableOf (is_of_kind kind) tasks events.now places.items) }
{
    let mut places = nowhere(alloc, tasks)?;
    for place in 0..events.len() {
        note_event(&mut places, events, place, kind);
    }
    Ok(places)
}

/// The index that a table has for a task, or 0.
pub fn noted_place(places: &[Option<u64>], task: u32) -> u64
    ensures { result ≡ noted_place places.now task }
{
    match places.get(task as usize) {
        Some(Some(place)) => *place,
        Some(None) => 0,
        None => 0,
    }
}

// A table for so many tasks, of which none has an index.
fn nowhere(alloc: Global, tasks: usize) -> Result<Vec<Option<u64>>, NoMemory>
    ensures { IfOk result (λ places. places.items ≡ replicate tasks None) }
{
    let mut places = Vec::with_capacity(alloc, tasks)?;
    for _task in 0..tasks {
        places.push_reserved(None);
    }
    Ok(places)
}

// Puts down the index of an event, if it is of the kind.
fn note_event(places: &mut Vec<Option<u64>>, events: &[TaskEvent], place: usize, kind: EventKind)
    ensures { places.new.items
        ≡ noted_event kind places.old.items (slice_get events.now place) place }
{
    let Some(event) = events.get(place) else {
        return;
    };
    if let Some(task) = task_if(kind, *event) {
        note(places, task, place as u64);
    }
}

// The task of an event, if the event is of the kind.
fn task_if(kind: EventKind, event: TaskEvent) -> Option<u32>
    ensures { result ≡ task_if kind event }
{
    match (kind, event) {
        (EventKind::Starts, TaskEvent::Started(task)) => Some(task),
        (EventKind::Ends, TaskEvent::Ended(task)) => Some(task),
        (EventKind::Starts, TaskEvent::Ended(_)) => None,
        (EventKind::Ends, TaskEvent::Started(_)) => None,
    }
}

// Puts down an index for a task, unless it has one.
fn note(places: &mut Vec<Option<u64>>, task: u32, place: u64)
    ensures { places.new.items ≡ noted places.old.items task place }
{
    if let Some(None) = places.get(task as usize) {
        places[task as usize] = Some(place);
    }
}
