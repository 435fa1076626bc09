// A job with the table of its net, and how its releases are taken up and recorded. None of it waits or takes a lock.
ghost use Rattle.std.specs.Prelude.{◌≡◌, ◌<◌, ◌≤◌, ◌+◌, ◌^◌, ◌++◌, ◌∷◌, [], length, None, Some, Option, IfOk, OnOk, OnErr};
ghost use Rattle.std.specs.Option.{option_copied};
ghost use Rattle.std.specs.Vec.{vec_capacity, vec_len};
ghost use Rattle.std.specs.Arc.{arc_value};
ghost use Rattle.join_tables.specs.Findings.{FindsOne};
ghost use Rattle.join_tables.specs.Keeping.{IsLast, LeavesOf, TellsRun, entries_told};
ghost use Rattle.semaphore_park.specs.Parking.{yard_key};
ghost use Rattle.semaphore_park.specs.Yards.{opened_as};
ghost use Rattle.semaphore_turns.specs.Semaphores.{taken_by};
ghost use Rattle.semaphore_turns.specs.HeldUnits.{LacksUnit, TakesUnits};
ghost use Rattle.semaphore_turns.specs.WaitingTurns.{yard_of};
ghost use Rattle.semaphore_turns.specs.WokenTurns.{ParksTurn};
ghost use Rattle.semaphore_turns.specs.Settlements.{Settles};
ghost use Rattle.table_runs.specs.AllowedFates.{IsAllowed};
ghost use Rattle.table_runs.specs.Attempts.{again_list};
ghost use Rattle.table_runs.specs.DoneTurns.{HasSame, HasSpace, IsNoTurn};
ghost use Rattle.table_runs.specs.Runs.{AreDoneIn};
ghost use Rattle.table_runs.specs.Spans.{spans_done, spans_inside, spans_kept, spans_made};

use super::done_turns::{DoneTurn, DoneTurns, add_row, move_rows};
use super::run_keeper::RunKeeper;
use join_tables::{Collected, Fresh, NetTable, Opening, Remaining, Turn};
use outside_io::NoMemory;
use run_frame::Job;
use semaphore_park::ParkYard;
use semaphore_turns::{
    ParkedTurn, Parking, ReadyKind, ReadyTurn, Settled, TakenUnits, TurnYard, park_turn, settle,
    take_units, takes_of,
};
use span_book::SpanBook;
use std::alloc::Global;
use std::marker::Model;
use std::sync::Arc;

/// A job with the table of its net.
pub struct TableRun<J: Job> {
    pub(crate) alloc: Global,
    pub(crate) job: Arc<J>,
    pub(crate) table: NetTable<J::V>,
    // The book of its spans, and of those of the runs inside it.
    pub(crate) book: Option<Arc<SpanBook>>,
}

// Written out, so that it is proved here alone and not in each crate above.
impl<J: Job + Drop> Drop for TableRun<J> {
    fn drop(self) {
        let TableRun {
            alloc: _,
            job,
            table,
            book,
        } = self;
        drop((job, table, book));
    }
}

impl<J: Job> Model for TableRun<J> {
    ghost use Rattle.table_runs.specs.RunKeys.{FrameKey};

    ghost Value = { FrameKey J };

    ghost use Rattle.std.specs.Arc.{arc_value};
    ghost use Rattle.table_runs.specs.RunKeys.{book_in};
    ghost use Rattle.table_runs.specs.inside.Tables.{RunsJob};

    ghost view = { λ run. record {
      table = run.table.table;
      job = arc_value run.job;
      book = book_in run.book;
    } };

    ghost invariant = { λ run. RunsJob J.meaning (arc_value run.job) run.table
        × J.keeps (arc_value run.job) };
}

/// A run that has just begun, with its first releases and its keeper.
#[derive(Drop)]
pub struct Begun<J: Job> {
    pub run: TableRun<J>,
    pub fresh: Vec<ReadyTurn<J::V>>,
    pub kept: RunKeeper<J>,
}

/// A release that has collected its tokens, the next release of its task, by tokens that were left, and the semaphore
/// for a unit of which it was woken.
#[derive(Drop)]
pub struct TakenUp<V> {
    pub turn: Turn<V>,
    pub again: Option<Fresh<V>>,
    pub woken: Option<u32>,
}

impl<J: Job + Drop> TableRun<J> {
    ghost use Rattle.table_runs.specs.RunKeys.{book_in, key_of, table_in};
    ghost use Rattle.table_runs.specs.Begins.{Begins};
    ghost use Rattle.table_runs.specs.CollectedRelease.{TakesUp};

    /// A run that has made no step. If it has a book, its spans are counted there, and those of the runs inside it.
    pub fn begin(
        alloc: Global,
        job: Arc<J>,
        book: Option<Arc<SpanBook>>,
    ) -> Result<Begun<J>, NoMemory>
        ensures begins { IfOk result (Begins J.meaning (arc_value job)) }
        ensures book { IfOk result (λ begun. begun.run.book ≡ book_in book) }
    {
        let net = Arc::try_clone(job.net())?;
        let limit = job.limit();
        let Opening {
            table,
            fresh,
            keeper,
        } = NetTable::new(alloc, net, limit)?;
        let kept = RunKeeper::new(alloc, Arc::try_clone(&job)?, &book, keeper);
        let fresh = ready_turns(alloc, fresh)?;
        let run = TableRun {
            alloc,
            job,
            table,
            book,
        };
        Ok(Begun { run, fresh, kept })
    }

    /// Takes up a release and collects its tokens, unless it was parked and has them. Where more tokens are there, the
    /// task is released again.
    pub fn take_up(&self, ready: ReadyTurn<J::V>) -> Result<TakenUp<J::V>, NoMemory>
        requires { ready.table ≡ self.now.table }
        ensures { IfOk result (TakesUp self.now.table ready) }
    {
        match ready.into_kind() {
            ReadyKind::Fresh(fresh) => self.collect(fresh),
            ReadyKind::Woken(turn, sem) => Ok(TakenUp {
                turn,
                again: None,
                woken: Some(sem),
            }),
        }
    }

    // Collects the tokens of a new release. Where more are there, the task is released again.
    fn collect(&self, fresh: Fresh<J::V>) -> Result<TakenUp<J::V>, NoMemory>
        requires { fresh.table ≡ self.now.table }
        ensures { IfOk result (TakesUp self.now.table fresh) }
    {
        let mut fresh = fresh;
        let inputs = self.table.room_for(self.alloc, &mut fresh)?;
        let mut collecting = self.table.reset(fresh, inputs);
        loop {
            match self.table.collect(collecting) {
                Collected::More(more) => collecting = more,
                Collected::Last(turn) => {
                    return Ok(TakenUp {
                        turn,
                        again: None,
                        woken: None,
                    });
                }
                Collected::LastAgain(turn, again) => {
                    return Ok(TakenUp {
                        turn,
                        again: Some(again),
                        woken: None,
                    });
                }
            }
        }
    }

    /// Takes a unit of each semaphore that the task of a turn takes, until one has none.
    pub fn take_units(&self, turn: Turn<J::V>) -> TakenUnits<J::V>
        requires table { turn.table ≡ self.now.table }
        requires none { (turn.refused ≡ None) × (turn.held ≡ []) }
        ensures { TakesUnits (J.meaning.net self.now.job) turn result }
    {
        take_units(&self.table, self.job.net(), turn, 0)
    }

    /// How many semaphores the task of a turn takes.
    pub fn count_takes(&self, turn: &Turn<J::V>) -> usize
        ensures count { result ≡ length (taken_by (J.meaning.net self.now.job) turn.now.task) }
        ensures few { result < 2 ^ 63 }
    {
        takes_of(self.job.net(), turn.task()).len()
    }

    /// Parks a turn that found no unit of the semaphore at a place among those that its task takes, unless it finds one
    /// now. If an allocation fails the turn is given up.
    pub fn park(
        &self,
        yard: &mut TurnYard<J::V>,
        turn: Turn<J::V>,
        place: usize,
        woken_for: Option<u32>,
        made: &mut Vec<ReadyTurn<J::V>>,
    ) -> Result<Parking<J::V>, NoMemory>
        requires yard { yard_key yard.old ≡ yard_of (table_in J.meaning self.now) }
        requires turn { (turn.table ≡ self.now.table) × (turn.refused ≡ None) }
        requires lacks { LacksUnit (J.meaning.net self.now.job) place turn }
        requires room { vec_len made.old
            + length (taken_by (J.meaning.net self.now.job) turn.task) ≤ vec_capacity made.old }
        ensures yard { yard_key yard.new ≡ yard_of (table_in J.meaning self.now) }
        ensures parks { IfOk result (λ parking. ParksTurn (table_in J.meaning self.now) turn parking
            made.old.items made.new.items) }
        ensures err { OnErr result (made.new.items ≡ made.old.items) }
        ensures capacity { vec_capacity made.new ≡ vec_capacity made.old }
        ensures few { vec_len made.new
            ≤ vec_len made.old + length (taken_by (J.meaning.net self.now.job) turn.task) }
    {
        park_turn(
            &self.table,
            self.job.net(),
            yard,
            turn,
            place,
            woken_for,
            made,
        )
    }

    /// Decides what becomes of the parked turns.
    pub fn settle(&self, yard: &mut TurnYard<J::V>) -> Result<Settled<J::V>, NoMemory>
        requires yard { yard_key yard.old ≡ yard_of (table_in J.meaning self.now) }
        ensures yard { yard_key yard.new ≡ yard_of (table_in J.meaning self.now) }
        ensures settles { IfOk result (Settles (table_in J.meaning self.now)) }
    {
        settle(&self.table, self.job.net(), self.alloc, yard)
    }

    /// The book of its spans.
    pub fn book(&self) -> Option<&Arc<SpanBook>>
        ensures { book_in (option_copied result) ≡ self.now.book }
    {
        self.book.as_ref()
    }

    /// Whether the net has a semaphore.
    pub fn has_semaphores(&self) -> bool {
        !self.job.net().sems().is_empty()
    }

    /// A yard for the turns of the run, behind a lock.
    pub fn yard(&self) -> Result<ParkYard<ParkedTurn<J::V>>, NoMemory>
        ensures { IfOk result
            (λ yard. yard_key (opened_as yard) ≡ yard_of (table_in J.meaning self.now)) }
    {
        ParkYard::new(self.alloc, self.job.net().sems().len(), &self.table)
    }

    /// One of a caller's own.
    pub fn own_yard(&self) -> Result<TurnYard<J::V>, NoMemory>
        ensures { IfOk result
            (λ yard. yard_key yard ≡ yard_of (table_in J.meaning self.now)) }
    {
        TurnYard::new(self.alloc, self.job.net().sems().len(), &self.table)
    }

    /// Adds a turn that is done to others, among which there is room for it.
    pub fn gather(&self, done: &mut DoneTurns<J>, turn: DoneTurn<J>)
        requires done { AreDoneIn J.meaning self.now done.old }
        requires table { turn.spent.table ≡ self.now.table }
        requires allowed { IsAllowed J.meaning self.now.job turn.spent.fate turn.inner }
        requires room { HasSpace done.old }
        ensures done { AreDoneIn J.meaning self.now done.new }
        ensures some { done.new.batch.table ≡ Some self.now.table }
        ensures fates { done.new.batch.fates ≡ done.old.batch.fates ++ turn.spent.fate ∷ [] }
        ensures inside { spans_inside done.new ≡ spans_inside done.old + spans_made turn.inner }
    {
        let DoneTurn { spent, inner } = turn;
        add_row(&mut done.inner, spent.fate(), inner);
        self.table.gather(&mut done.batch, spent);
    }

    /// Adds turns that are done to others, at least one. If an allocation fails, all stays as it was.
    pub fn gather_all(
        &self,
        done: &mut DoneTurns<J>,
        more: &mut DoneTurns<J>,
    ) -> Result<(), NoMemory>
        requires done { AreDoneIn J.meaning self.now done.old }
        requires more { AreDoneIn J.meaning self.now more.old }
        requires some { more.old.batch.table ≡ Some self.now.table }
        ensures done { AreDoneIn J.meaning self.now done.new }
        ensures table { OnOk result (done.new.batch.table ≡ Some self.now.table) }
        ensures fates { OnOk result
            (done.new.batch.fates ≡ done.old.batch.fates ++ more.old.batch.fates) }
        ensures spans { OnOk result
            (spans_done done.new ≡ spans_done done.old + spans_done more.old) }
        ensures taken { OnOk result (IsNoTurn more.new) }
        ensures err { OnErr result (HasSame done.old done.new × HasSame more.old more.new) }
    {
        done.inner.try_reserve(more.inner.len())?;
        self.table.gather_all(&mut done.batch, &mut more.batch)?;
        move_rows(&mut done.inner, &mut more.inner);
        Ok(())
    }

    /// Gives turns that are done to the keeper, at least one.
    pub fn keep(
        &self,
        kept: &mut RunKeeper<J>,
        done: &mut DoneTurns<J>,
    ) -> Result<Remaining, NoMemory>
        requires kept { key_of kept.old ≡ self.now }
        requires done { AreDoneIn J.meaning self.now done.old }
        requires some { done.old.batch.table ≡ Some self.now.table }
        ensures same { key_of kept.new ≡ self.now }
        ensures fates { OnOk result
            (kept.new.keeper.fates ≡ kept.old.keeper.fates ++ done.old.batch.fates) }
        ensures spans { OnOk result
            (spans_kept kept.new ≡ spans_kept kept.old + spans_done done.old) }
        ensures taken { OnOk result (IsNoTurn done.new) }
        ensures found { IfOk result
            (λ left. FindsOne (λ n. LeavesOf n left) kept.old.keeper.found kept.new.keeper.found) }
        ensures err { OnErr result (HasSame done.old done.new) }
        ensures err_kept { OnErr result (kept.new ≡ kept.old) }
        ensures all { IsLast result
            → TellsRun (J.meaning.net kept.new.job) (J.meaning.limit kept.new.job)
            (entries_told kept.new.keeper.fates) }
    {
        kept.absorb(&self.table, done)
    }
}

// New releases that may be taken up.
fn ready_turns<V: Drop>(alloc: Global, fresh: Vec<Fresh<V>>) -> Result<Vec<ReadyTurn<V>>, NoMemory>
    ensures { IfOk result (λ ready. ready.items ≡ fresh.items) }
{
    let mut ready = Vec::with_capacity(alloc, fresh.len())?;
    for one in fresh {
        ready.push_reserved(ReadyTurn::fresh(one));
    }
    Ok(ready)
}

/// Adds the next release of a task, if there is one.
pub fn add_again<V: Drop>(made: &mut Vec<ReadyTurn<V>>, again: Option<Fresh<V>>)
    requires { vec_len made.old + 1 ≤ vec_capacity made.old }
    ensures made { made.new.items ≡ made.old.items ++ again_list again }
    ensures few { vec_len made.new ≤ vec_len made.old + 1 }
    ensures capacity { vec_capacity made.new ≡ vec_capacity made.old }
{
    if let Some(again) = again {
        made.push_reserved(ReadyTurn::fresh(again));
    }
}
