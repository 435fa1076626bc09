// Runs, as plain data, and what is looked up in one.
ghost use Rattle.std.specs.Prelude.{◌≡◌, ◌↔◌, IsTrue, count_by, option_copied};
ghost use Rattle.run_frame.specs.LastEnds.{is_end_of, last_end};
ghost use Rattle.run_frame.specs.Legal.{inner_at};
ghost use Rattle.run_frame.specs.NestedRule.{journal_of};
ghost use Rattle.run_frame.specs.Runs.{value_at, values_of, inner_in, IsFine};
ghost use Rattle.run_frame.specs.inside.Cuts.{cuts_short};

use super::end_values::ended_task;
use super::job::Valued;
use journal_rules::{DropWhy, Entry, Journal};
use outside_io::List;
use std::sync::Arc;

/// The value of the End at a place.
#[derive(Drop)]
pub struct ValueRow<V> {
    pub place: u64,
    pub value: Arc<V>,
}

/// A run of a job: its journal, the value of each End, and the runs that its starts made. Of two rows of one
/// kind with the same place the first counts.
#[cycle(run)]
#[derive(Drop)]
pub struct FrameRun<J: Valued> {
    pub job: Arc<J>,
    pub journal: Journal,
    pub values: List<ValueRow<J::V>>,
    pub inner: Vec<InnerRow<J>>,
}

/// The run that the start made which the End or Fault at this place closed.
#[cycle(run)]
#[derive(Drop)]
pub struct InnerRow<J: Valued> {
    pub place: u64,
    pub run: FrameRun<J>,
}

impl<J: Valued> FrameRun<J> {
    /// The value of the End at a place, or `None` where no End is there. It walks over the values.
    pub fn value(&self, place: u64) -> Option<&J::V>
        ensures { option_copied result ≡ value_at (values_of self.now) place }
    {
        value_in(self.values.as_slice(), place)
    }

    /// The run that was made by the start which the End or Fault at a place closed, or `None` where there is
    /// none. It walks over the inner runs.
    pub fn inner(&self, place: u64) -> Option<&FrameRun<J>>
        ensures { option_copied result ≡ inner_at self.now place }
    {
        inner_in(self.inner.as_slice(), place)
    }

    /// The place of a task's last End, or `None` where it has none. It walks over the journal.
    pub fn last_end(&self, task: u32) -> Option<u64>
        ensures { result ≡ last_end (journal_of self.now) task }
    {
        last_end_in(self.journal.as_slice(), task)
    }

    /// Whether nothing in it was cut short: no start faulted, and no release was dropped at the limit or for want of a
    /// unit. It walks over the journal.
    pub fn is_fine(&self) -> bool
        ensures { IsTrue result ↔ IsFine (journal_of self.now) }
    {
        count_cuts(self.journal.as_slice()) == 0
    }
}

// The value of the first row with this place.
fn value_in<V>(rows: &[ValueRow<V>], place: u64) -> Option<&V>
    ensures { option_copied result ≡ value_at rows.now place }
{
    for row in rows {
        if row.place == place {
            return Some(&row.value);
        }
    }
    None
}

// The run of the first row with this place.
fn inner_in<J: Valued>(rows: &[InnerRow<J>], place: u64) -> Option<&FrameRun<J>>
    ensures { option_copied result ≡ inner_in rows.now place }
{
    for row in rows {
        if row.place == place {
            return Some(&row.run);
        }
    }
    None
}

#[tactic(auto, using(crate::proofs::EndsLemmas::last_before_at))]
// The last place at which there is an End of the task.
fn last_end_in(entries: &[Entry], task: u32) -> Option<u64>
    ensures { result ≡ last_end entries.now task }
{
    let mut last = None;
    for place in 0..entries.len() {
        if is_end_of(entries, task, place) {
            last = Some(place as u64);
        }
    }
    last
}

// Whether there is an End of the task at a place.
fn is_end_of(entries: &[Entry], task: u32, place: usize) -> bool
    ensures { result ≡ is_end_of entries.now task place }
{
    match ended_task(entries, place) {
        Some(ended) => ended == task,
        None => false,
    }
}

// How many entries say that their run was cut short.
fn count_cuts(journal: &[Entry]) -> usize
    ensures { result ≡ count_by cuts_short journal.now }
{
    journal.iter().filter(|entry| cuts_short(entry)).count()
}

// Whether an entry says that its run was cut short.
fn cuts_short(entry: &Entry) -> bool
    ensures { result ≡ cuts_short entry.now }
{
    match entry {
        Entry::Start { .. } | Entry::End { .. } => false,
        Entry::Fault { .. } => true,
        Entry::Drop { why, .. } => !matches!(why, DropWhy::Halted),
    }
}
