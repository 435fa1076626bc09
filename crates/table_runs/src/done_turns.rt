// Turns that are done and not yet with their keeper, and the runs that were made in place of the work of some.
ghost use Rattle.std.specs.Prelude.{◌≡◌, ◌<◌, ◌≤◌, ◌+◌, ◌++◌, ◌↔◌, [], None, IsTrue, OnOk, OnErr, length};
ghost use Rattle.std.specs.Vec.{vec_capacity, vec_len};
ghost use Rattle.join_tables.specs.Batches.{batch_state};
ghost use Rattle.table_runs.specs.inside.FateRuns.{closing_place, AddsRow};

use join_tables::{Fate, Spent, SpentBatch};
use outside_io::NoMemory;
use run_frame::{FrameRun, InnerRow, Job};
use std::alloc::Global;

/// A turn that is done, and the run that was made in place of its work, if one was.
#[derive(Drop)]
pub struct DoneTurn<J: Job> {
    pub spent: Spent<J::V>,
    pub inner: Option<FrameRun<J>>,
}

/// Several of one frame, with the place in the journal for each of their runs.
#[derive(Drop)]
pub struct DoneTurns<J: Job> {
    pub batch: SpentBatch<J::V>,
    pub inner: Vec<InnerRow<J>>,
}

impl<J: Job + Drop> DoneTurns<J> {
    ghost use Rattle.table_runs.specs.DoneTurns.{HasSame, HasSpace, IsNoTurn};

    /// No turn. It takes no memory.
    pub fn new(alloc: Global) -> DoneTurns<J>
        ensures { IsNoTurn result }
    {
        DoneTurns {
            batch: SpentBatch::new(alloc),
            inner: Vec::new(alloc),
        }
    }

    /// Makes room for one more turn, and for a run.
    pub fn make_room(&mut self) -> Result<(), NoMemory>
        ensures same { HasSame self.old self.new }
        ensures room { OnOk result (HasSpace self.new) }
    {
        self.batch.make_room()?;
        self.inner.try_reserve(1)?;
        Ok(())
    }

    /// Whether there is none.
    pub fn is_empty(&self) -> bool
        ensures table { IsTrue result ↔ (self.now.batch.table ≡ None) }
        ensures fates { IsTrue result ↔ (self.now.batch.fates ≡ []) }
    {
        self.batch.is_empty()
    }
}

/// Adds the row of the run that was made in place of the work of a start, if one was.
pub fn add_row<J: Job + Drop>(
    rows: &mut Vec<InnerRow<J>>,
    fate: &Fate<J::V>,
    inner: Option<FrameRun<J>>,
)
    requires { vec_len rows.old < vec_capacity rows.old }
    ensures { AddsRow fate.now inner rows.old.items rows.new.items }
{
    if let Some(run) = inner {
        let place = closing_place(fate);
        rows.push_reserved(InnerRow { place, run });
    }
}

/// Adds rows to others, among which there is room for them.
pub(crate) fn move_rows<J: Job + Drop>(rows: &mut Vec<InnerRow<J>>, more: &mut Vec<InnerRow<J>>)
    requires { vec_len rows.old + vec_len more.old ≤ vec_capacity rows.old }
    ensures rows { rows.new.items ≡ rows.old.items ++ more.old.items }
    ensures none_left { more.new.items ≡ [] }
{
    if rows.append(more).is_err() {
        unreachable!()
    }
}

// The place in the journal of the End or the Fault of a start.
fn closing_place<V>(fate: &Fate<V>) -> u64
    ensures { result ≡ closing_place fate.now }
{
    match fate {
        Fate::Ended(ended) => ended.place,
        Fate::Faulted(failure) => failure.place,
        Fate::Dropped(_) | Fate::AllDropped(_) => 0,
    }
}
