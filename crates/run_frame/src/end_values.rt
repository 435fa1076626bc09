// The last End of each task of a run, and the value of each End, each for all of them by one walk.
ghost use Rattle.std.specs.Prelude.{◌≡◌, ◌==◌, ◌<◌, ℕ, None, Some, length, replicate, IfOk, slice_index_or, option_map, if◌then◌else◌};
ghost use Rattle.std.specs.Option.{option_or};
ghost use Rattle.std.specs.Arc.{arc_value};
ghost use Rattle.journal_rules.specs.Counts.{start_at};
ghost use Rattle.run_frame.specs.Runs.{value_at};
ghost use Rattle.run_frame.specs.LastEnds.{ended_at, last_end};

use super::run::ValueRow;
use journal_rules::{Entry, Journal};
use outside_io::NoMemory;
use std::alloc::Global;
use std::sync::Arc;

/// The place of the last End of each of so many tasks. It takes one walk over the journal.
pub fn last_ends(
    alloc: Global,
    journal: &Journal,
    tasks: usize,
) -> Result<Vec<Option<u64>>, NoMemory>
    ensures len { IfOk result (λ ends. length ends.items ≡ tasks) }
    ensures each { IfOk result (λ ends. (t : ℕ) → t < tasks
        → slice_index_or ends.items t None ≡ last_end journal.now t) }
{
    let mut ends = nothing_held(alloc, tasks)?;
    let entries = journal.as_slice();
    for place in 0..entries.len() {
        if let Some(task) = ended_task(entries, place) {
            note_end(&mut ends, task, place as u64);
        }
    }
    Ok(ends)
}

// The task whose End is at a place.
pub(crate) fn ended_task(entries: &[Entry], place: usize) -> Option<u32>
    ensures { result ≡ ended_at entries.now place }
{
    match entries.get(place) {
        Some(Entry::End { start, .. }) => started_task(entries, *start),
        _ => None,
    }
}

// The task whose Start is at a place.
fn started_task(entries: &[Entry], place: u64) -> Option<u32>
    ensures { result ≡ start_at entries.now place }
{
    match entries.get(place as usize) {
        Some(Entry::Start { task, .. }) => Some(*task),
        _ => None,
    }
}

// Puts down the place of an End of a task.
fn note_end(ends: &mut Vec<Option<u64>>, task: u32, place: u64)
    ensures len { length ends.new.items ≡ length ends.old.items }
    ensures each { (t : ℕ) → t < length ends.old.items →
        slice_index_or ends.new.items t None
        ≡ (if task == t then Some place else slice_index_or ends.old.items t None) }
{
    if let Some(last) = ends.get_mut(task as usize) {
        *last = Some(place);
    }
}

/// The value of the first row for each place below so many. It takes one walk over the rows.
pub fn values_by_place<V: Drop>(
    alloc: Global,
    rows: &[ValueRow<V>],
    places: usize,
) -> Result<Vec<Option<Arc<V>>>, NoMemory>
    ensures len { IfOk result (λ values. length values.items ≡ places) }
    ensures each { IfOk result (λ values. (n : ℕ) → n < places →
        option_map arc_value (slice_index_or values.items n None) ≡ value_at rows.now n) }
{
    let mut values = nothing_held(alloc, places)?;
    for row in rows {
        keep_first(&mut values, row)?;
    }
    Ok(values)
}

// So many places that hold nothing.
fn nothing_held<T: Drop>(alloc: Global, count: usize) -> Result<Vec<Option<T>>, NoMemory>
    ensures { IfOk result (λ held. held.items ≡ replicate count None) }
{
    let mut held = Vec::with_capacity(alloc, count)?;
    for _place in 0..count {
        held.push_reserved(None);
    }
    Ok(held)
}

// Keeps the value of a row where its place has none yet.
fn keep_first<V: Drop>(values: &mut Vec<Option<Arc<V>>>, row: &ValueRow<V>) -> Result<(), NoMemory>
    ensures len { length values.new.items ≡ length values.old.items }
    ensures each { IfOk result (λ _. (n : ℕ) → n < length values.old.items →
        option_map arc_value (slice_index_or values.new.items n None)
        ≡ option_or (option_map arc_value (slice_index_or values.old.items n None))
        (if row.now.place == n then Some (arc_value row.now.value) else None)) }
{
    if let Some(kept) = values.get_mut(row.place as usize) {
        if kept.is_none() {
            *kept = Some(Arc::try_clone(&row.value)?);
        }
    }
    Ok(())
}
