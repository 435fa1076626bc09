// What has the keeper of a run.
ghost use Rattle.std.specs.Prelude.{◌≡◌, ◌+◌, ◌≤◌, ◌++◌, [], IfOk, IsPermutation, OnOk, OnErr, Some};
ghost use Rattle.nested_runs.specs.Totals.{all_spans};
ghost use Rattle.table_runs.specs.Spans.{spans_done, spans_kept};
ghost use Rattle.std.specs.Vec.{vec_capacity, vec_len};
ghost use Rattle.std.specs.List.Sorted.{IsNonDecreasingBy};
ghost use Rattle.std.specs.Arc.{arc_value};
ghost use Rattle.join_tables.specs.Findings.{FindsOne};
ghost use Rattle.join_tables.specs.Keeping.{IsLast, LeavesOf, TellsRun, entries_told};
ghost use Rattle.run_frame.specs.Legal.{IsKept};
ghost use Rattle.run_frame.specs.NestedRule.{job_of};
ghost use Rattle.table_runs.specs.inside.FateRuns.{AreAllowed};
ghost use Rattle.table_runs.specs.RunKeys.{book_in, key_of};
ghost use Rattle.table_runs.specs.JournalFacts.{HasEntries};
ghost use Rattle.table_runs.specs.DoneTurns.{HasSame, IsNoTurn};
ghost use Rattle.table_runs.specs.inside.Rows.{place_in_row, rows_of};

use super::done_turns::{DoneTurns, move_rows};
use join_tables::{FinishedRun, Keeper, NetTable, RecordedValue, Remaining};
use keyed_lock::Keyed;
use outside_io::{List, NoMemory};
use run_frame::{FrameRun, InnerRow, Job, ValueRow};
use span_book::SpanBook;
use std::alloc::Global;
use std::marker::Model;
use std::snapshot::Snapshot;
use std::sync::Arc;

/// The keeper of a run of a job. The job allows what became of each turn that it has taken in, with the runs that were
/// made in place of the work of some.
pub struct RunKeeper<J: Job> {
    alloc: Global,
    job: Arc<J>,
    keeper: Keeper<J::V>,
    inner: Vec<InnerRow<J>>,
    // The book of the run's spans.
    book: Snapshot<Option<Arc<SpanBook>>>,
}

// Written out, so that it is proved here alone and not in each crate above.
impl<J: Job + Drop> Drop for RunKeeper<J> {
    fn drop(self) {
        let RunKeeper {
            alloc: _,
            job,
            keeper,
            inner,
            book: _,
        } = self;
        drop((job, keeper, inner));
    }
}

impl<J: Job> Model for RunKeeper<J> {
    ghost use Rattle.table_runs.specs.RunKeys.{RunKeeperView};

    ghost Value = { RunKeeperView J J.V };

    ghost use Rattle.std.specs.Prelude.{map, sum};
    ghost use Rattle.std.specs.Arc.{arc_value};
    ghost use Rattle.nested_runs.specs.Totals.{spans_of_row};
    ghost use Rattle.table_runs.specs.RunKeys.{book_in};
    ghost use Rattle.table_runs.specs.inside.FateRuns.{AreAllowed};

    ghost view = { λ kept. record {
      job = arc_value kept.job;
      keeper = kept.keeper;
      inside = sum (map spans_of_row kept.inner.items);
      book = book_in kept.book.value;
    } };

    ghost invariant = { λ kept. AreAllowed J.meaning (arc_value kept.job) kept.keeper.fates
        kept.inner.items };
}

impl<J: Job> Keyed for RunKeeper<J> {
    ghost use Rattle.table_runs.specs.RunKeys.{FrameKey, key_of};

    ghost Key = { FrameKey J };

    ghost key = { key_of };
}

impl<J: Job + Drop> RunKeeper<J> {
    /// Of a run that has just begun.
    #[tactic(auto, using(crate::proofs::Keeping::none_allowed))]
    pub(crate) fn new(
        alloc: Global,
        job: Arc<J>,
        book: &Option<Arc<SpanBook>>,
        keeper: Keeper<J::V>,
    ) -> RunKeeper<J>
        requires { keeper.fates ≡ [] }
        ensures job { result.job ≡ arc_value job }
        ensures keeper { result.keeper ≡ keeper }
        ensures book { result.book ≡ book_in book.now }
        ensures no_spans { spans_kept result ≡ 0 }
    {
        RunKeeper {
            alloc,
            job,
            keeper,
            inner: Vec::new(alloc),
            book: Snapshot::of(book),
        }
    }

    /// Takes in turns that are done, at least one. If an allocation fails, all stays as it was.
    pub(crate) fn absorb(
        &mut self,
        table: &NetTable<J::V>,
        done: &mut DoneTurns<J>,
    ) -> Result<Remaining, NoMemory>
        requires keeper { self.old.keeper.table ≡ table.now.table }
        requires batch { done.old.batch.table ≡ Some table.now.table }
        requires allowed { AreAllowed J.meaning self.old.job done.old.batch.fates
            done.old.inner.items }
        ensures same { key_of self.new ≡ key_of self.old }
        ensures fates { OnOk result
            (self.new.keeper.fates ≡ self.old.keeper.fates ++ done.old.batch.fates) }
        ensures spans { OnOk result
            (spans_kept self.new ≡ spans_kept self.old + spans_done done.old) }
        ensures taken { OnOk result (IsNoTurn done.new) }
        ensures found { IfOk result
            (λ left. FindsOne (λ n. LeavesOf n left) self.old.keeper.found self.new.keeper.found) }
        ensures err { OnErr result (HasSame done.old done.new) }
        ensures err_kept { OnErr result (self.new ≡ self.old) }
        ensures all { IsLast result
            → TellsRun table.now.net table.now.limit (entries_told self.new.keeper.fates) }
    {
        self.inner.try_reserve(done.inner.len())?;
        let left = self.keeper.absorb(table, &mut done.batch)?;
        move_rows(&mut self.inner, &mut done.inner);
        Ok(left)
    }

    /// The keeper as it is now, for clauses.
    pub fn keeper_now(&self) -> Snapshot<Keeper<J::V>>
        ensures { result.value ≡ self.now.keeper }
    {
        Snapshot::of(&self.keeper)
    }

    /// The run, where the last turn was taken in, or there was no release at first.
    pub fn finish(self) -> Result<FrameRun<J>, NoMemory>
        requires { TellsRun (J.meaning.net self.job) (J.meaning.limit self.job)
            (entries_told self.keeper.fates) }
        ensures kept { IfOk result (IsKept J.meaning) }
        ensures job { IfOk result (λ run. job_of run ≡ self.job) }
        ensures entries { IfOk result (λ run. HasEntries run self.keeper.fates) }
        ensures spans { IfOk result (λ run. all_spans run ≡ spans_kept self) }
    {
        let RunKeeper {
            alloc,
            job,
            keeper,
            mut inner,
            book: _,
        } = self;
        let FinishedRun { journal, values } = keeper.finish()?;
        let values = value_rows(alloc, values)?;
        sort_rows(&mut inner)?;
        Ok(FrameRun {
            job,
            journal,
            values,
            inner,
        })
    }
}

// Puts the runs inside a run in the order of their places.
fn sort_rows<J: Job + Drop>(rows: &mut Vec<InnerRow<J>>) -> Result<(), NoMemory>
    ensures same { OnOk result (IsPermutation rows.old.items rows.new.items) }
    ensures sorted { OnOk result (IsNonDecreasingBy place_in_row rows.new.items) }
{
    rows.sort_by_key(|row| row.place)?;
    Ok(())
}

// The rows of a run that have these values.
fn value_rows<V: Drop>(
    alloc: Global,
    values: Vec<RecordedValue<V>>,
) -> Result<List<ValueRow<V>>, NoMemory>
    ensures { IfOk result (λ rows. rows ≡ rows_of values.items) }
{
    let mut rows = Vec::with_capacity(alloc, values.len())?;
    for recorded in values {
        let RecordedValue { place, value } = recorded;
        rows.push_reserved(ValueRow { place, value });
    }
    Ok(List::from_vec(rows))
}
