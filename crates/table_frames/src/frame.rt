// Frames, and what is done in one by its locks.
ghost use Rattle.std.specs.Prelude.{◌≡◌, ◌≢◌, ◌⊎◌, ◌<◌, ◌≤◌, ◌+◌, ◌^◌, ◌++◌, ◌∷◌, [], None, Some, All, IfOk, IfSome, OnOk, OnErr, length};
ghost use Rattle.task_graph.specs.Net.{AreSemaphoresOf};
ghost use Rattle.std.specs.Vec.{vec_capacity, vec_len};
ghost use Rattle.std.specs.Arc.{arc_value};
ghost use Rattle.join_tables.specs.Keeping.{TellsRun, entries_told};
ghost use Rattle.join_tables.specs.States.{FreshState, fresh_state};
ghost use Rattle.run_frame.specs.Legal.{IsKept};
ghost use Rattle.run_frame.specs.NestedRule.{job_of};
ghost use Rattle.table_frames.specs.Frames.{depth_inside, frames_around};
ghost use Rattle.keyed_lock.specs.Locks.{made_with};

use super::closed_run::ClosedRun;
use super::frame_batch::FrameBatch;
use super::locked_run::{LockedRun, Taken};
use super::over::{InnerOver, Kept, Over};
use join_tables::{Remaining, Spent, Turn};
use keyed_lock::{Held, KeyedLock};
use outside_io::NoMemory;
use run_frame::{FrameRun, Job};
use semaphore_park::ParkYard;
use semaphore_turns::{ParkedTurn, Parking, ReadyTurn, Settled, TakenUnits, wake_turns};
use span_book::{RunSpans, SpanBook, Teller};
use std::alloc::Global;
use std::marker::Model;
use std::sync::{Arc, Wait};
use table_runs::{Attempt, DoneTurn, DoneTurns, OpenStart, TableRun, TakenUp, Tried};

/// A run that several threads step. Its releases hold it. Only its keeper and what is parked are under locks.
#[derive(Drop)]
pub struct Frame<J: Job> {
    alloc: Global,
    run: TableRun<J>,
    lock: KeyedLock<LockedRun<J>>,
    // What waits for units. Whoever has the keeper may wait for it, and whoever has it waits for nothing.
    yard: ParkYard<ParkedTurn<J::V>>,
    depth: u32,
    // The frame that it is inside.
    parent: Option<Arc<Frame<J>>>,
}

impl<J: Job> Model for Frame<J> {
    ghost use Rattle.std.specs.Prelude.{◌≡◌, ◌≢◌, ◌∷◌, [], IfSome, List, length};
    ghost use Rattle.std.specs.Arc.{arc_value};
    ghost use Rattle.table_runs.specs.RunKeys.{FrameKey};

    ghost Value = { List (FrameKey J) };

    ghost use Rattle.keyed_lock.specs.Locks.{made_with};
    ghost use Rattle.semaphore_park.specs.Parking.{yard_key};
    ghost use Rattle.semaphore_park.specs.Yards.{opened_as};
    ghost use Rattle.semaphore_turns.specs.WaitingTurns.{yard_of};
    ghost use Rattle.table_frames.specs.Frames.{depth_of, frames_around};
    ghost use Rattle.table_runs.specs.RunKeys.{table_in};
    ghost use Rattle.table_frames.specs.inside.Books.{HasOneBook};
    ghost use Rattle.table_frames.specs.inside.LockedRuns.{lock_key_of, lock_key_in};

    ghost view = { λ frame. frame.run ∷ frames_around frame.parent };

    ghost invariant = { λ frame. (lock_key_of (made_with frame.lock)
        ≡ lock_key_in frame.run (frames_around frame.parent))
        × (yard_key (opened_as frame.yard) ≡ yard_of (table_in J.meaning frame.run))
        × (frame.depth ≡ depth_of (frame.run ∷ frames_around frame.parent))
        × IfSome frame.parent (λ parent. arc_value parent ≢ [])
        × HasOneBook frame.run (frames_around frame.parent) };

    ghost size = { length };
}

impl<J: Job + Drop> Frame<J> {
    ghost use Rattle.semaphore_turns.specs.Semaphores.{taken_by};
    ghost use Rattle.semaphore_turns.specs.HeldUnits.{HoldsAll, LacksUnit, TakesUnits};
    ghost use Rattle.semaphore_turns.specs.WaitingTurns.{release_of};
    ghost use Rattle.semaphore_turns.specs.WokenTurns.{ParksTurn, Wakes};
    ghost use Rattle.semaphore_turns.specs.Settlements.{AreDrops, Settles};
    ghost use Rattle.span_book.specs.SpanBooks.{name_of, no_spans, teller_state};
    ghost use Rattle.table_runs.specs.Spans.{spans_in, spans_inside, spans_made};
    ghost use Rattle.table_frames.specs.Frames.{AtFrame, HasTable, IsTellerOf, book_of, frames_around};
    ghost use Rattle.table_runs.specs.RunKeys.{table_in};
    ghost use Rattle.table_frames.specs.inside.TriedReleases.{IsAttemptAt, TriesRelease, TriesAt, IsTakenIn};
    ghost use Rattle.table_runs.specs.Attempts.{room_due, units_due};
    ghost use Rattle.table_frames.specs.inside.FrameBatches.{HasBack, HasSpaceIn, AreDoneAt, IsBackOf};
    ghost use Rattle.table_frames.specs.inside.Overs.{IsEnd, IsOverOf, KeepsFates};
    ghost use Rattle.table_frames.specs.inside.LockedRuns.{IsLockedAt, IsWhole, lock_key_of, lock_key_in};
    ghost use Rattle.table_frames.specs.inside.Books.{HasOneBook, IsOneBook};
    ghost use Rattle.table_runs.specs.OpenStarts.{IsStartOf};
    ghost use Rattle.table_frames.specs.inside.AttemptEnds.{Concludes};
    ghost use Rattle.table_runs.specs.DoneTurns.{HasSame, HasSpace, IsNoTurn};

    /// Goes on with a start of the frame in place of whose work a run was made.
    pub(crate) fn resumed(
        &self,
        start: OpenStart<J>,
        run: FrameRun<J>,
    ) -> Result<Attempt<J>, NoMemory>
        requires frame { AtFrame self.now (λ key. start.frame ≡ key) }
        requires start { IsStartOf J.meaning (job_of run) start }
        requires kept { IsKept J.meaning run }
        ensures attempt { IfOk result (IsAttemptAt J.meaning self.now) }
        ensures release { IfOk result (λ attempt. TriesRelease self.now attempt
            (fresh_state start.frame.table start.running.task start.running.cause)) }
        ensures inner { IfOk result (λ attempt. attempt.inner ≡ Some run) }
        ensures again { IfOk result (λ attempt. attempt.again ≡ None) }
    {
        self.run.resume(start, run)
    }

    /// A frame inside another, or in none.
    pub(crate) fn new(
        alloc: Global,
        run: TableRun<J>,
        locked: LockedRun<J>,
        parent: Option<Arc<Frame<J>>>,
    ) -> Result<Arc<Frame<J>>, NoMemory>
        requires key { lock_key_of locked ≡ lock_key_in run (frames_around parent) }
        requires some { IfSome parent (λ parent. arc_value parent ≢ []) }
        requires book { HasOneBook run (frames_around parent) }
        ensures { IfOk result (λ frame. arc_value frame ≡ run ∷ frames_around parent) }
    {
        let lock = KeyedLock::new(alloc, locked)?;
        let yard = run.yard()?;
        let depth = depth_inside(&parent);
        let frame = Frame {
            alloc,
            run,
            lock,
            yard,
            depth,
            parent,
        };
        Ok(Arc::new(alloc, frame)?)
    }

    /// Where its memory comes from.
    pub(crate) fn heap(&self) -> Global {
        self.alloc
    }

    /// Takes up a release of the frame.
    pub(crate) fn take_up(&self, ready: ReadyTurn<J::V>) -> Result<TakenUp<J::V>, NoMemory>
        requires { HasTable self.now ready.table }
        ensures taken { IfOk result (λ taken. AtFrame self.now (λ key. IsTakenIn key taken)) }
        ensures none { IfOk result (λ taken. taken.turn.held ≡ []) }
        ensures release { IfOk result (λ taken. release_of taken.turn ≡ ready) }
    {
        self.run.take_up(ready)
    }

    /// Takes the units of a turn of the frame.
    pub(crate) fn take_units(&self, turn: Turn<J::V>) -> TakenUnits<J::V>
        requires table { HasTable self.now turn.table }
        requires none { (turn.refused ≡ None) × (turn.held ≡ []) }
        ensures { AtFrame self.now (λ key. TakesUnits (J.meaning.net key.job) turn result) }
    {
        self.run.take_units(turn)
    }

    /// How many semaphores the task of a turn takes.
    pub(crate) fn count_takes(&self, turn: &Turn<J::V>) -> usize
        ensures count { AtFrame self.now
            (λ key. result ≡ length (taken_by (J.meaning.net key.job) turn.now.task)) }
        ensures few { result < 2 ^ 63 }
    {
        self.run.count_takes(turn)
    }

    /// Looks once more for the unit that a turn lacks, under the lock of what is parked, and parks it if there is none.
    pub(crate) fn park_turn<R: Wait>(
        &self,
        rt: &R,
        turn: Turn<J::V>,
        place: usize,
        woken_for: Option<u32>,
        made: &mut Vec<ReadyTurn<J::V>>,
    ) -> Result<Parking<J::V>, NoMemory>
        requires turn { HasTable self.now turn.table × (turn.refused ≡ None) }
        requires lacks { AtFrame self.now (λ key. LacksUnit (J.meaning.net key.job) place turn) }
        requires room { AtFrame self.now (λ key. vec_len made.old
            + length (taken_by (J.meaning.net key.job) turn.task) ≤ vec_capacity made.old) }
        ensures parks { IfOk result (λ parking. AtFrame self.now (λ key. ParksTurn
            (table_in J.meaning key) turn parking made.old.items made.new.items)) }
        ensures err { OnErr result (made.new.items ≡ made.old.items) }
        ensures capacity { vec_capacity made.new ≡ vec_capacity made.old }
        ensures few { AtFrame self.now (λ key. vec_len made.new
            ≤ vec_len made.old + length (taken_by (J.meaning.net key.job) turn.task)) }
    {
        let Held {
            value: mut yard,
            pass,
        } = self.yard.lock(rt);
        let parking = self.run.park(&mut yard, turn, place, woken_for, made);
        self.yard.unlock(Held { value: yard, pass });
        parking
    }

    /// Does the work of a release of the frame that has its units.
    pub(crate) fn attempt(&self, taken: TakenUp<J::V>) -> Result<Tried<J>, NoMemory>
        requires taken { AtFrame self.now (λ key. IsTakenIn key taken) }
        requires holds { AtFrame self.now (λ key. HoldsAll (J.meaning.net key.job) taken.turn) }
        ensures { IfOk result (TriesAt J.meaning self.now (release_of taken.turn)) }
    {
        self.run.attempt(taken)
    }

    /// How many releases can come of an attempt, those included that wait for its units.
    pub(crate) fn room_for(&self, attempt: &Attempt<J>) -> usize
        ensures { AtFrame self.now
            (λ key. result ≡ room_due attempt.now
            + length (units_due (J.meaning.net key.job) attempt.now.outcome)) }
    {
        attempt.room() + self.run.units_back(&attempt.outcome).len()
    }

    /// Ends the start, or records its Fault or the Drop, gathers the turn, with the run in place of its work that has
    /// come back, and adds what it released to an empty list, at last what it woke.
    pub(crate) fn conclude<R: Wait>(
        &self,
        rt: &R,
        attempt: Attempt<J>,
        returned: Option<RunSpans>,
        batch: &mut FrameBatch<J>,
        made: &mut Vec<ReadyTurn<J::V>>,
    )
        requires attempt { IsAttemptAt J.meaning self.now attempt }
        requires returned { HasBack self.now (spans_made attempt.inner) returned }
        requires one { IfSome returned (λ inner. batch.old.backlog.fates ≡ []) }
        requires frames { batch.old.backlog.frames ≡ self.now }
        requires room { HasSpaceIn batch.old }
        requires none { made.old.items ≡ [] }
        requires capacity { AtFrame self.now (λ key. vec_len made.old + room_due attempt
            + length (units_due (J.meaning.net key.job) attempt.outcome) ≤ vec_capacity made.old) }
        ensures concludes { Concludes J.meaning self.now attempt batch.old.backlog
            batch.new.backlog made.new.items }
        ensures fresh { All (λ (f : FreshState). HasTable self.now f.table) made.new.items }
        ensures few { AtFrame self.now (λ key. vec_len made.new ≤ vec_len made.old
            + room_due attempt
            + length (units_due (J.meaning.net key.job) attempt.outcome)) }
    {
        let back = self.run.units_back(&attempt.outcome);
        let turn = self.run.conclude(attempt, made);
        batch.add(&self.run, turn, returned);
        self.wake(rt, back, made);
    }

    // Wakes what waits for units that are back.
    fn wake<R: Wait>(&self, rt: &R, sems: &[u32], made: &mut Vec<ReadyTurn<J::V>>)
        requires sems { AtFrame self.now
            (λ key. AreSemaphoresOf (J.meaning.net key.job) sems.now) }
        requires room { vec_len made.old + length sems.now ≤ vec_capacity made.old }
        ensures wakes { AtFrame self.now (λ key. Wakes (table_in J.meaning key) sems.now
            made.old.items made.new.items) }
        ensures few { vec_len made.new ≤ vec_len made.old + length sems.now }
    {
        if sems.is_empty() {
            return;
        }
        let Held {
            value: mut yard,
            pass,
        } = self.yard.lock(rt);
        wake_turns(&mut yard, sems, made);
        self.yard.unlock(Held { value: yard, pass });
    }

    // Decides what becomes of what is parked.
    pub(crate) fn settle_parked<R: Wait>(&self, rt: &R) -> Result<Settled<J::V>, NoMemory>
        ensures { IfOk result (λ settled. AtFrame self.now
            (λ key. Settles (table_in J.meaning key) settled)) }
    {
        if !self.run.has_semaphores() {
            return Ok(Settled::Waits);
        }
        let Held {
            value: mut yard,
            pass,
        } = self.yard.lock(rt);
        let settled = self.run.settle(&mut yard);
        self.yard.unlock(Held { value: yard, pass });
        settled
    }

    // Adds a turn of dropped releases to a batch of the frame, which has room for it.
    pub(crate) fn gather(&self, done: &mut DoneTurns<J>, spent: Spent<J::V>)
        requires done { AreDoneAt J.meaning self.now done.old }
        requires spent { HasTable self.now spent.table × AreDrops spent.fate }
        requires room { HasSpace done.old }
        ensures done { AreDoneAt J.meaning self.now done.new }
        ensures fates { done.new.batch.fates ≡ done.old.batch.fates ++ spent.fate ∷ [] }
        ensures inside { spans_inside done.new ≡ spans_inside done.old }
    {
        self.run.gather(done, DoneTurn { spent, inner: None });
    }

    // Takes turns of the frame in, with the run inside it that has come back, if one of them is of its start. A teller
    // told their spans. With the last turn the run is given out, and the lock is left without a value: nobody has a
    // turn by which to take it.
    pub(crate) fn keep<R: Wait>(
        &self,
        rt: &R,
        done: &mut DoneTurns<J>,
        returned: &mut Option<RunSpans>,
        teller: &mut Teller,
    ) -> Result<Kept<J>, NoMemory>
        requires done { AreDoneAt J.meaning self.now done.old }
        requires returned { IsBackOf self.now done.old returned.old }
        requires teller { IsTellerOf self.now teller.old }
        ensures keeps { IfOk result (KeepsFates J.meaning self.now done.old.batch.fates) }
        ensures told { OnOk result (teller.new ≡ teller_state teller.old.book
            (teller.old.told + spans_in done.old.batch.fates)) }
        ensures taken { OnOk result (IsNoTurn done.new × (returned.new ≡ None)) }
        ensures err { OnErr result
            ((HasSame done.old done.new × (returned.new ≡ returned.old))
            ⊎ (IsNoTurn done.new × (returned.new ≡ None))) }
        ensures teller { teller.new.book ≡ teller.old.book }
    {
        if done.is_empty() {
            return Ok(Kept {
                over: Over::No,
                keeper: None,
            });
        }
        let Held { mut value, pass } = self.lock.take(rt);
        match value.take_in(&self.run, self.book(), done, returned, teller) {
            Ok(Taken::Kept(Remaining::All)) => {
                let keeper = Some(value.keeper_now());
                Ok(Kept {
                    over: self.finish(value)?,
                    keeper,
                })
            }
            Ok(Taken::Kept(Remaining::More)) => {
                let keeper = Some(value.keeper_now());
                self.lock.put(Held { value, pass });
                Ok(Kept {
                    over: Over::No,
                    keeper,
                })
            }
            Ok(Taken::Aside) => {
                self.lock.put(Held { value, pass });
                Ok(Kept {
                    over: Over::No,
                    keeper: None,
                })
            }
            Err(NoMemory) => {
                self.lock.put(Held { value, pass });
                Err(NoMemory)
            }
        }
    }

    // The run of the frame, which is over, and the start whose work it was.
    fn finish(&self, locked: LockedRun<J>) -> Result<Over<J>, NoMemory>
        requires key { IsLockedAt self.now locked }
        requires whole { IsWhole J.meaning locked }
        ensures over { IfOk result (IsOverOf J.meaning self.now locked.kept.keeper.fates) }
        ensures end { IfOk result IsEnd }
    {
        let LockedRun {
            kept,
            spans,
            start,
            ..
        } = locked;
        let run = kept.finish()?;
        let Some(start) = start else {
            let spans = spans.end();
            return Ok(Over::Alone(ClosedRun { run, spans }));
        };
        let Some(parent) = &self.parent else {
            unreachable!()
        };
        let parent = Arc::try_clone(parent)?;
        Ok(Over::Inside(InnerOver {
            parent,
            start,
            run,
            spans,
        }))
    }

    /// Opens a run inside the frame, in the book of their spans.
    pub(crate) fn open_inside<R: Wait>(&self, rt: &R) -> RunSpans
        ensures one { IsOneBook self.now }
        ensures book { book_of self.now ≡ Some result.book }
        ensures new { result ≡ no_spans result.book (length self.now) }
    {
        let Held { mut value, pass } = self.lock.take(rt);
        let spans = value.open_inside(self.book());
        self.lock.put(Held { value, pass });
        spans
    }

    // The book of the spans of the frame, and of those around it.
    fn book(&self) -> &SpanBook
        ensures { book_of self.now ≡ Some (name_of result.now) }
    {
        match self.run.book() {
            Some(book) => book,
            None => unreachable!(),
        }
    }
}

impl<J: Job> Frame<J> {
    ghost use Rattle.table_frames.specs.Frames.{depth_of};

    /// How many frames it is inside.
    pub(crate) fn depth(&self) -> u32
        ensures { result ≡ depth_of self.now }
    {
        self.depth
    }

    // How many frames a frame is inside that is inside it.
    fn depth_below(&self) -> u32
        ensures { result ≡ depth_inside self.now }
    {
        self.depth.saturating_add(1)
    }
}

// How many frames a frame is inside whose parent this is.
fn depth_inside<J: Job + Drop>(parent: &Option<Arc<Frame<J>>>) -> u32
    ensures { result ≡ depth_inside (frames_around parent.now) }
{
    match parent {
        Some(parent) => parent.depth_below(),
        None => 0,
    }
}
