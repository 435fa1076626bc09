// The keeper of a run: it takes in the turns that are done.
ghost use Rattle.std.specs.Prelude.{◌≡◌, Some, None, [], IfOk, OnOk, OnErr};
ghost use Rattle.table_steps.specs.OneJournal.{AreInOneJournal};
ghost use Rattle.join_tables.specs.Batches.{batch_state};
ghost use Rattle.join_tables.specs.Findings.{FindsOne};
ghost use Rattle.join_tables.specs.Finishing.{AreEndValues, IsRunTold};
ghost use Rattle.join_tables.specs.Keeping.{AgreeOnValues, entries_told, keeper_state, keeper_with, with_places, TellsRun, TellsSomeRun, Merges, LeavesOf, IsLast};

use crate::batch::SpentBatch;
use crate::fates::Fate;
use crate::merge::merged;
use crate::turns::NetTable;
use journal_rules::{Entry, Journal};
use keyed_lock::Keyed;
use outside_io::NoMemory;
use std::alloc::Global;
use std::marker::Model;
use std::sync::Arc;
use table_steps::TableSeat;

/// An entry of the journal, and its place there.
#[derive(Drop)]
pub struct Recorded {
    pub place: u64,
    pub entry: Entry,
}

/// The value of the End at a place of the journal.
#[derive(Drop)]
pub struct RecordedValue<V> {
    pub place: u64,
    pub value: Arc<V>,
}

/// The journal of a run that is finished, and the values of its Ends, in their order.
#[derive(Drop)]
pub struct FinishedRun<V> {
    pub journal: Journal,
    pub values: Vec<RecordedValue<V>>,
}

/// The fates of the turns that are done.
pub struct Keeper<V> {
    alloc: Global,
    seat: TableSeat<V>,
    fates: Vec<Fate<V>>,
}

// Written out, so that it is proved here alone and not in each crate above.
impl<V: Drop> Drop for Keeper<V> {
    fn drop(self) {
        let Keeper {
            alloc: _,
            seat,
            fates,
        } = self;
        drop((seat, fates));
    }
}

impl<V> Model for Keeper<V> {
    ghost use Rattle.std.specs.Prelude.{◌≡◌, []};
    ghost use Rattle.table_steps.specs.Values.{Knows, HaveOneValueEach};
    ghost use Rattle.join_tables.specs.Values.{values_known};
    ghost use Rattle.join_tables.specs.Keeping.{KeeperState, keeper_state, entries_told};
    ghost use Rattle.table_steps.specs.inside.Accounts.{busy, weigh};
    ghost use Rattle.join_tables.specs.inside.Recording.{tellings, told_notes};

    ghost Value = { KeeperState V };

    ghost view = { λ k. keeper_state k.seat.table_id k.fates.items k.seat.found };

    ghost invariant = { λ k. (k.seat.id ≡ 0) × (k.seat.me.1 ≡ [])
        × (tellings k.seat.me.0 ≡ told_notes (entries_told k.fates.items))
        × (weigh busy k.seat.me.0 ≡ 0) × Knows k.seat.values (values_known k.fates.items)
        × HaveOneValueEach k.seat.values };
}

impl<V> Keyed for Keeper<V> {
    ghost use Rattle.atomic_table.specs.Seated.{TableId};

    ghost Key = { TableId };

    ghost key = { λ k. k.table };
}

/// Whether turns are left.
#[derive(Clone, Copy)]
pub enum Remaining {
    /// Turns are left.
    More,
    /// No turn was left but those that were taken in: the run is finished.
    All,
}

impl<V: Drop> Keeper<V> {
    // That of a table whose turns are dealt out.
    pub(crate) fn new(alloc: Global, seat: TableSeat<V>) -> Keeper<V>
        requires keeper { seat.id ≡ 0 }
        requires view { seat.me ≡ ([], []) }
        requires values { seat.values ≡ [] }
        ensures { result ≡ keeper_state seat.table_id [] seat.found }
    {
        Keeper {
            alloc,
            seat,
            fates: Vec::new(alloc),
        }
    }

    /// Takes in the turns of a batch, which isn't empty. It answers `All` where its own step found one live turn, and
    /// the fates are then those of a whole run. If an allocation fails, the keeper and the batch stay as they were.
    /// Whatever it answers, the entries of all turns that it has taken in are in one journal that is legal as far as
    /// the net decides. Where a start found the value of an End that was taken in too, it is the value with which that
    /// End was ended.
    pub fn absorb(
        &mut self,
        table: &NetTable<V>,
        batch: &mut SpentBatch<V>,
    ) -> Result<Remaining, NoMemory>
        requires keeper { self.old.table ≡ table.now.table }
        requires batch { batch.old.table ≡ Some table.now.table }
        ensures ok { OnOk result (self.new ≡ keeper_with self.old batch.old.fates self.new.found) }
        ensures taken { OnOk result (batch.new ≡ batch_state None [] batch.old.room) }
        ensures left { IfOk result
            (λ left. FindsOne (λ n. LeavesOf n left) self.old.found self.new.found) }
        ensures err { OnErr result ((self.new ≡ self.old) × (batch.new ≡ batch.old)) }
        ensures journal { AreInOneJournal table.now.net table.now.limit
            (with_places (entries_told self.new.fates)) }
        ensures agree { AgreeOnValues self.new.fates }
        ensures all { IsLast result
            → TellsRun table.now.net table.now.limit (entries_told self.new.fates) }
    {
        if self.fates.append(&mut batch.fates).is_err() {
            table.words.learn(&mut self.seat);
            return Err(NoMemory);
        }
        let Some(spent) = batch.seat.take() else {
            unreachable!()
        };
        Ok(Remaining::of(table.words.settle(&mut self.seat, spent)))
    }

    /// The journal of a run that is finished, with the values of its Ends: `All` was answered, or there was no release
    /// at first. The journal has each entry that the fates tell at its place. Nothing is copied.
    pub fn finish(self) -> Result<FinishedRun<V>, NoMemory>
        requires { TellsSomeRun (entries_told self.fates) }
        ensures merges { IfOk result (λ run. Merges (entries_told self.fates) run.journal) }
        ensures finished { IfOk result (λ run. IsRunTold self.fates run.journal) }
        ensures values { IfOk result (λ run. AreEndValues self.fates run.journal run.values.items) }
        ensures agree { AgreeOnValues self.fates }
    {
        let Keeper { alloc, seat, fates } = self;
        drop(seat);
        merged(alloc, fates)
    }
}

impl Remaining {
    // What is left where so many live turns were found.
    fn of(found: u64) -> Remaining
        ensures { LeavesOf found result }
    {
        if found == 1 {
            Remaining::All
        } else {
            Remaining::More
        }
    }
}
