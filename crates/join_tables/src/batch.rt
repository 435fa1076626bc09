// Turns that are done, gathered before they go to the keeper.
ghost use Rattle.std.specs.Prelude.{◌≡◌, ◌↔◌, ◌<◌, ◌++◌, ◌∷◌, IfSome, IsTrue, Some, None, OnOk, OnErr, [], length};
ghost use Rattle.std.specs.Option.{option_map_or};
ghost use Rattle.join_tables.specs.Batches.{batch_state};
ghost use Rattle.join_tables.specs.Rests.{IsOfTable};
ghost use Rattle.table_steps.specs.Values.{Knows};
ghost use Rattle.table_steps.specs.inside.Kinds.{MayGather, left_by};

use crate::fates::Fate;
use crate::turns::{NetTable, Spent};
use keyed_lock::Keyed;
use outside_io::NoMemory;
use std::alloc::Global;
use std::marker::Model;
use table_steps::TableSeat;

/// Turns that are done and not yet with the keeper. One of them is still live, so the run isn't finished while there is
/// a batch that isn't empty.
pub struct SpentBatch<V> {
    // where there is a turn
    pub(crate) seat: Option<TableSeat<V>>,
    pub(crate) fates: Vec<Fate<V>>,
}

// Written out, so that it is proved here alone and not in each crate above.
impl<V: Drop> Drop for SpentBatch<V> {
    fn drop(self) {
        let SpentBatch { seat, fates } = self;
        drop((seat, fates));
    }
}

impl<V> Model for SpentBatch<V> {
    ghost use Rattle.std.specs.Prelude.{◌≡◌, ◌≢◌, [], IfSome, IfNone};
    ghost use Rattle.std.specs.Option.{option_map};
    ghost use Rattle.std.specs.Vec.{vec_capacity};
    ghost use Rattle.table_steps.specs.Values.{Knows};
    ghost use Rattle.join_tables.specs.Values.{values_known};
    ghost use Rattle.join_tables.specs.Batches.{BatchState, batch_state};
    ghost use Rattle.join_tables.specs.Keeping.{entries_told};
    ghost use Rattle.join_tables.specs.inside.Seated.{IsSpent};

    ghost Value = { BatchState V };

    ghost view = { λ b. batch_state (option_map (λ s. s.table_id) b.seat) b.fates.items
        (vec_capacity b.fates) };

    ghost invariant = { λ b. IfSome b.seat
        (λ s. IsSpent (entries_told b.fates.items) s.me.0 × (s.me.1 ≡ [])
        × Knows s.values (values_known b.fates.items) × (b.fates.items ≢ []))
        × IfNone b.seat (b.fates.items ≡ []) };
}

impl<V> Keyed for SpentBatch<V> {
    ghost use Rattle.std.specs.Prelude.{Option};
    ghost use Rattle.atomic_table.specs.Seated.{TableId};

    ghost Key = { Option TableId };

    ghost key = { λ b. b.table };
}

impl<V: Drop> SpentBatch<V> {
    /// A batch without turns and without room. It takes no memory.
    pub fn new(alloc: Global) -> SpentBatch<V>
        ensures { result ≡ batch_state None [] 0 }
    {
        SpentBatch {
            seat: None,
            fates: Vec::new(alloc),
        }
    }

    /// Makes room for one more turn, unless there is room.
    pub fn make_room(&mut self) -> Result<(), NoMemory>
        ensures same { self.new ≡ batch_state self.old.table self.old.fates self.new.room }
        ensures room { OnOk result (length self.new.fates < self.new.room) }
        ensures err { OnErr result (self.new ≡ self.old) }
    {
        self.fates.try_reserve(1)?;
        Ok(())
    }

    /// What became of its turns, in the order in which they were gathered.
    pub fn fates(&self) -> &[Fate<V>]
        ensures { result.now ≡ self.now.fates }
    {
        self.fates.as_slice()
    }

    /// Whether it has no turn.
    pub fn is_empty(&self) -> bool
        ensures table { IsTrue result ↔ (self.now.table ≡ None) }
        ensures fates { IsTrue result ↔ (self.now.fates ≡ []) }
    {
        self.seat.is_none()
    }
}

impl<V: Drop> NetTable<V> {
    /// Adds a turn that is done to a batch that has room for it. Where the batch had turns, this one is taken off the
    /// live turns. It takes no memory, and doesn't wait.
    pub fn gather(&self, batch: &mut SpentBatch<V>, spent: Spent<V>)
        requires batch { IsOfTable self.now.table batch.old.table }
        requires spent { spent.table ≡ self.now.table }
        requires room { length batch.old.fates < batch.old.room }
        ensures { batch.new ≡ batch_state (Some self.now.table) (batch.old.fates ++ spent.fate ∷ [])
            batch.old.room }
    {
        let Spent { seat: own, fate } = spent;
        batch.fates.push_reserved(fate);
        let seat = self.join_batch(batch.seat.take(), own);
        batch.seat = Some(seat);
    }

    /// Adds the turns of a batch to another, and takes one of the two live turns off. The other stays live, so this is
    /// never the last. If an allocation fails, both stay as they were.
    pub fn gather_all(
        &self,
        batch: &mut SpentBatch<V>,
        more: &mut SpentBatch<V>,
    ) -> Result<(), NoMemory>
        requires batch { IsOfTable self.now.table batch.old.table }
        requires more { more.old.table ≡ Some self.now.table }
        ensures ok { OnOk result (batch.new ≡ batch_state (Some self.now.table)
            (batch.old.fates ++ more.old.fates) batch.new.room) }
        ensures taken { OnOk result (more.new ≡ batch_state None [] more.old.room) }
        ensures err { OnErr result
            (batch.new ≡ batch_state batch.old.table batch.old.fates batch.new.room) }
        ensures err_more { OnErr result (more.new ≡ more.old) }
    {
        if batch.fates.append(&mut more.fates).is_err() {
            return Err(NoMemory);
        }
        let Some(own) = more.seat.take() else {
            unreachable!()
        };
        let seat = self.join_batch(batch.seat.take(), own);
        batch.seat = Some(seat);
        Ok(())
    }

    // Gives what a turn knows to the seat of a batch, which is the turn's own where the batch has none.
    fn join_batch(&self, seat: Option<TableSeat<V>>, own: TableSeat<V>) -> TableSeat<V>
        requires table { IfSome seat (λ s. s.table_id ≡ self.now.table)
            × (own.table_id ≡ self.now.table) }
        requires home { IfSome seat (λ s. s.me.1 ≡ []) × (own.me.1 ≡ []) }
        requires ready { IfSome seat (λ s. MayGather s.me.0 own.me.0) }
        ensures table { result.table_id ≡ self.now.table }
        ensures view { result.me ≡ (own.me.0 ++ option_map_or (λ s. left_by s.me.0) seat [], []) }
        ensures known { Knows result.values (option_map_or (λ s. s.values) seat [])
            × Knows result.values own.values }
    {
        let Some(mut seat) = seat else { return own };
        self.words.gather(&mut seat, own);
        seat
    }
}
