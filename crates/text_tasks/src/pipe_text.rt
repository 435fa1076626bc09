// What a pipeline's run comes to: the texts with which the last pipe ended, by the places of their tokens in the order.
ghost use Rattle.std.specs.Prelude.{◌≡◌, ◌==◌, ◌<◌, ℕ, None, Some, length, replicate, IfOk, if◌then◌else◌, slice_index_or};
ghost use Rattle.journal_rules.specs.Counts.{start_at};
ghost use Rattle.run_frame.specs.LastEnds.{ended_at};
ghost use Rattle.run_frame.specs.NestedRule.{journal_of};
ghost use Rattle.run_frame.specs.Runs.{values_of};
ghost use Rattle.text_ops.specs.Values.{Makes};
ghost use Rattle.text_tasks.specs.PipeEnds.{in_last_pipe, pipe_text, token_end_before};
ghost use Rattle.text_tasks.specs.inside.Gathering.{AreTokenValues, AreValuesOf, all_of, token_ended};

use crate::gathered::{LastValues, add_value, joined};
use crate::item::Item;
use crate::job::TextJob;
use crate::pipe_job::PipeJob;
use journal_rules::Entry;
use outside_io::{List, NoMemory};
use run_frame::{FrameRun, values_by_place};
use std::alloc::Global;
use std::sync::Arc;
use text_ops::{ApplyError, Text};

// The texts of all tokens that passed, one behind the other. Where just one of them isn't empty its bytes are shared.
pub(crate) fn pipe_text(
    alloc: Global,
    job: &PipeJob,
    run: &FrameRun<TextJob>,
) -> Result<Text, ApplyError>
    ensures { Makes (pipe_text job.now run.now) result }
{
    joined(alloc, texts_of_tokens(alloc, job, run)?.as_slice())
}

// The texts of the tokens in the order in which they passed, but those that are empty.
fn texts_of_tokens(
    alloc: Global,
    job: &PipeJob,
    run: &FrameRun<TextJob>,
) -> Result<List<Text>, NoMemory>
    ensures { IfOk result (λ texts. all_of texts ≡ pipe_text job.now run.now) }
{
    let places = job.order.passed.len();
    let values = token_values(alloc, run, job.spec.serial.len(), places)?;
    let mut texts = List::new(alloc);
    for place in 0..places {
        add_value(&mut texts, values.get(place))?;
    }
    Ok(texts)
}

// What the last of so many pipes ended with, by the places of the tokens in the order, of which there are so many. It
// walks over the journal once and over the values once.
fn token_values(
    alloc: Global,
    run: &FrameRun<TextJob>,
    pipes: usize,
    places: usize,
) -> Result<LastValues, NoMemory>
    requires { 0 < pipes }
    ensures { IfOk result (AreTokenValues run.now pipes places) }
{
    let values = values_by_place(alloc, run.values.as_slice(), run.journal.len())?;
    let ends = token_ends(alloc, run, values.as_slice(), pipes, places)?;
    Ok(LastValues { ends, values })
}

// Of each place of the order where the last End of the last pipe with its token is.
fn token_ends(
    alloc: Global,
    run: &FrameRun<TextJob>,
    values: &[Option<Arc<Item>>],
    pipes: usize,
    places: usize,
) -> Result<Vec<Option<u64>>, NoMemory>
    requires values { AreValuesOf run.now values.now }
    requires pipes { 0 < pipes }
    ensures len { IfOk result (λ ends. length ends.items ≡ places) }
    ensures each { IfOk result (λ ends. (place : ℕ) → place < places
        → slice_index_or ends.items place None
        ≡ token_end_before pipes (journal_of run.now) (values_of run.now)
        (length (journal_of run.now)) place) }
{
    let mut ends = vec![in alloc; None; places]?;
    for n in 0..run.journal.len() {
        if let Some(place) = ended_token(run, values, pipes, n) {
            note_end(&mut ends, place, n as u64);
        }
    }
    Ok(ends)
}

// The place in the order of the token with which the last pipe ended at a place of the journal, if it did there.
fn ended_token(
    run: &FrameRun<TextJob>,
    values: &[Option<Arc<Item>>],
    pipes: usize,
    n: usize,
) -> Option<u64>
    requires values { AreValuesOf run.now values.now }
    requires pipes { 0 < pipes }
    requires within { n < length (journal_of run.now) }
    ensures { result ≡ token_ended pipes (journal_of run.now) (values_of run.now) n }
{
    let task = ended_task(run.journal.as_slice(), n)?;
    if !is_in_last_pipe(task, pipes) {
        return None;
    }
    match values.get(n)? {
        Some(item) => Some(item.place()),
        None => None,
    }
}

// Whether a task is a cell of the last of so many pipes.
fn is_in_last_pipe(task: u32, pipes: usize) -> bool
    requires { 0 < pipes }
    ensures { result ≡ in_last_pipe pipes task }
{
    task as usize % pipes == pipes - 1
}

// The task whose End is at a place.
fn ended_task(entries: &[Entry], place: usize) -> Option<u32>
    ensures { result ≡ ended_at entries.now place }
{
    match entries.get(place) {
        Some(Entry::End { start, .. }) => started_task(entries, *start),
        _ => None,
    }
}

// The task whose Start is at a place.
fn started_task(entries: &[Entry], place: u64) -> Option<u32>
    ensures { result ≡ start_at entries.now place }
{
    match entries.get(place as usize) {
        Some(Entry::Start { task, .. }) => Some(*task),
        _ => None,
    }
}

// Puts down where an End with the token at a place of the order is.
fn note_end(ends: &mut Vec<Option<u64>>, place: u64, end: u64)
    ensures len { length ends.new.items ≡ length ends.old.items }
    ensures each { (k : ℕ) → k < length ends.old.items
        → slice_index_or ends.new.items k None
        ≡ (if place == k then Some end else slice_index_or ends.old.items k None) }
{
    if let Some(last) = ends.get_mut(place as usize) {
        *last = Some(end);
    }
}
