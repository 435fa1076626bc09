// The steps of releases, and the bringing of what they have done.
ghost use Rattle.std.specs.Prelude.{◌≡◌, ◌⊎◌, ◌<◌, ◌+◌, [], All, IfOk, IfSome, OnOk, OnErr};
ghost use Rattle.std.specs.Arc.{arc_value};

use super::backlog::Backlog;
use super::frame::Frame;
use super::frame_batch::FrameBatch;
use super::over::{InnerOver, Kept, Over};
use super::release::{Release, ReleaseRoom};
use super::step_results::{Brought, State, Stepped};
use outside_io::NoMemory;
use run_frame::Job;
use semaphore_turns::{Parking, ReadyTurn, TakenUnits};
use span_book::{RunSpans, Teller};
use std::sync::{Arc, Wait};
use table_runs::{Attempt, TakenUp, Tried, add_again};

impl<J: Job + Drop> Frame<J> {
    ghost use Rattle.semaphore_turns.specs.HeldUnits.{HoldsAll, LacksUnit};
    ghost use Rattle.semaphore_turns.specs.WaitingTurns.{release_of};
    ghost use Rattle.span_book.specs.SpanBooks.{teller_state};
    ghost use Rattle.table_runs.specs.Spans.{spans_in, spans_made};
    ghost use Rattle.table_frames.specs.Frames.{AtFrame, IsTellerOf, MayTake, backlog_view, release_in};
    ghost use Rattle.table_frames.specs.BacklogResults.{BringsFates, IsLeftOf, SettlesFrame};
    ghost use Rattle.table_frames.specs.Steps.{StepsRelease};
    ghost use Rattle.table_frames.specs.inside.TriedReleases.{IsAttemptAt, IsTakenIn};
    ghost use Rattle.table_frames.specs.inside.FrameBatches.{HasBack, HasSpaceIn};
    ghost use Rattle.table_frames.specs.inside.Overs.{IsInnerOver, Resumes};
    ghost use Rattle.table_frames.specs.inside.AttemptEnds.{Concludes, HandsOn};

    /// Takes the step of a release: drops it, or starts its task, does its work and ends the start or records its
    /// fault, or parks it where a semaphore that its task takes has no unit. Where its job answers a job, it opens a
    /// run of that job and steps nothing in it; only a run that has no first release is over in the same call. What
    /// became of the release is then in the backlog, which was of this frame or of none. It may wait where releases are
    /// parked, for the lock that they are under, and where it opens a run, for that of its frame. If an allocation
    /// fails the release is given up, so that the run is never closed, and the backlog has what it had; from the End's
    /// place on no memory is needed.
    pub fn step<R: Wait>(
        rt: &R,
        release: Release<J>,
        backlog: &mut Backlog<J>,
    ) -> Result<Stepped<J>, NoMemory>
        requires { MayTake backlog.old release.frames }
        ensures ok { IfOk result (StepsRelease J.meaning release backlog.old backlog.new) }
        ensures err { OnErr result
            ((backlog.new ≡ backlog.old)
            ⊎ (backlog.new ≡ backlog_view release.frames backlog.old.fates)) }
    {
        let Release { frame, ready } = release;
        let TakenUp { turn, again, woken } = frame.take_up(ready)?;
        match frame.take_units(turn) {
            TakenUnits::All(turn) => Frame::work(
                rt,
                frame,
                TakenUp { turn, again, woken },
                backlog,
            ),
            TakenUnits::Lacks(turn, place) => {
                Frame::park(rt, frame, TakenUp { turn, again, woken }, place, backlog)
            }
        }
    }

    // Goes on with a release that has its units, or is parked.
    fn park<R: Wait>(
        rt: &R,
        frame: Arc<Frame<J>>,
        taken: TakenUp<J::V>,
        place: usize,
        backlog: &mut Backlog<J>,
    ) -> Result<Stepped<J>, NoMemory>
        requires frame { MayTake backlog.old (arc_value frame) }
        requires taken { AtFrame (arc_value frame) (λ key. IsTakenIn key taken) }
        requires lacks { AtFrame (arc_value frame)
            (λ key. LacksUnit (J.meaning.net key.job) place taken.turn) }
        ensures ok { IfOk result (StepsRelease J.meaning
            (release_in (arc_value frame) (release_of taken.turn)) backlog.old backlog.new) }
        ensures err { OnErr result
            ((backlog.new ≡ backlog.old)
            ⊎ (backlog.new ≡ backlog_view (arc_value frame) backlog.old.fates)) }
    {
        let TakenUp { turn, again, woken } = taken;
        backlog.batch.make_room(&frame)?;
        let count = frame.count_takes(&turn) + 1;
        let room = ReleaseRoom::with_turns(backlog.alloc, &frame, count, &mut backlog.made)?;
        match frame.park_turn(rt, turn, place, woken, &mut backlog.made)? {
            Parking::Taken(turn) => Frame::work(rt, frame, TakenUp { turn, again, woken }, backlog),
            Parking::Parked(turn) => {
                add_again(&mut backlog.made, again);
                Ok(Stepped {
                    released: room.hand_out(frame, &mut backlog.made),
                    state: State::Parked(turn),
                })
            }
        }
    }

    // Does the work of a release that has its units, and concludes it.
    fn work<R: Wait>(
        rt: &R,
        frame: Arc<Frame<J>>,
        taken: TakenUp<J::V>,
        backlog: &mut Backlog<J>,
    ) -> Result<Stepped<J>, NoMemory>
        requires frame { MayTake backlog.old (arc_value frame) }
        requires taken { AtFrame (arc_value frame) (λ key. IsTakenIn key taken) }
        requires holds { AtFrame (arc_value frame)
            (λ key. HoldsAll (J.meaning.net key.job) taken.turn) }
        ensures ok { IfOk result (StepsRelease J.meaning
            (release_in (arc_value frame) (release_of taken.turn)) backlog.old backlog.new) }
        ensures err { OnErr result
            ((backlog.new ≡ backlog.old)
            ⊎ (backlog.new ≡ backlog_view (arc_value frame) backlog.old.fates)) }
    {
        backlog.batch.make_room(&frame)?;
        match frame.attempt(taken)? {
            Tried::Done(attempt) => Ok(Stepped {
                released: Frame::hand_on(
                    rt,
                    frame,
                    attempt,
                    None,
                    &mut backlog.batch,
                    &mut backlog.made,
                )?,
                state: State::Went,
            }),
            Tried::Inner(inner) => Frame::open(rt, frame, inner),
        }
    }

    // Concludes an attempt of a frame, whose turn is in the batch then, with the run in place of its work that has come
    // back, and hands out what it released.
    fn hand_on<R: Wait>(
        rt: &R,
        frame: Arc<Frame<J>>,
        attempt: Attempt<J>,
        returned: Option<RunSpans>,
        batch: &mut FrameBatch<J>,
        made: &mut Vec<ReadyTurn<J::V>>,
    ) -> Result<Vec<Release<J>>, NoMemory>
        requires attempt { IsAttemptAt J.meaning (arc_value frame) attempt }
        requires returned { HasBack (arc_value frame) (spans_made attempt.inner) returned }
        requires one { IfSome returned (λ inner. batch.old.backlog.fates ≡ []) }
        requires frames { batch.old.backlog.frames ≡ arc_value frame }
        requires room { HasSpaceIn batch.old }
        requires none { made.old.items ≡ [] }
        ensures ok { IfOk result (λ released. HandsOn J.meaning (arc_value frame) attempt
            batch.old.backlog batch.new.backlog released.items) }
        ensures err { OnErr result (batch.new.backlog ≡ batch.old.backlog) }
        ensures none { made.new.items ≡ [] }
    {
        let count = frame.room_for(&attempt);
        let room = ReleaseRoom::with_turns(frame.heap(), &frame, count, made)?;
        frame.conclude(rt, attempt, returned, batch, made);
        Ok(room.hand_out(frame, made))
    }

    /// Gives what is in a backlog to its frame, for whose lock it may wait. The teller is of the book of the frame's
    /// spans, and told those of the backlog. While a run is open inside the frame the backlog is laid aside there, else
    /// its keeper takes it in, with all that was laid aside. With the last turn of the frame its run is over: exactly
    /// where the keeper found one live turn then. A run in no other
    /// is returned then. The run of a frame inside another goes on with the start whose work it was: it is gathered
    /// into the value of the End, or is a Fault if it was cut short. That turn of the frame around is in the backlog
    /// then, and what it released is returned. An `Err` comes only if an allocation fails. Then the backlog stays as it
    /// was, or nothing is in it and the run, or the one around it, is never closed.
    pub fn bring<R: Wait>(
        rt: &R,
        backlog: &mut Backlog<J>,
        teller: &mut Teller,
    ) -> Result<Brought<J>, NoMemory>
        requires teller { IsTellerOf backlog.old.frames teller.old }
        ensures ok { IfOk result
            (BringsFates J.meaning backlog.old.frames backlog.old.fates backlog.new) }
        ensures told { OnOk result (teller.new ≡ teller_state teller.old.book
            (teller.old.told + spans_in backlog.old.fates)) }
        ensures err { OnErr result (IsLeftOf backlog.old backlog.new) }
        ensures teller { teller.new.book ≡ teller.old.book }
    {
        let Kept { over, keeper } = backlog.batch.bring(rt, teller)?;
        match over {
            Over::No => Ok(Brought {
                state: State::Went,
                keeper,
            }),
            Over::Alone(closed) => Ok(Brought {
                state: State::Closed(closed),
                keeper,
            }),
            Over::Inside(inner) => Ok(Brought {
                state: State::Resumed(Frame::resume(rt, inner, backlog)?),
                keeper,
            }),
        }
    }

    // Goes on with the start whose work was a run that is over.
    fn resume<R: Wait>(
        rt: &R,
        inner: InnerOver<J>,
        backlog: &mut Backlog<J>,
    ) -> Result<Vec<Release<J>>, NoMemory>
        requires inner { IsInnerOver J.meaning inner }
        requires none { backlog.old ≡ backlog_view [] [] }
        ensures ok { IfOk result (λ released. Resumes J.meaning inner released.items
            backlog.new) }
        ensures err { OnErr result
            ((backlog.new ≡ backlog_view [] [])
            ⊎ (backlog.new ≡ backlog_view (arc_value inner.parent) [])) }
    {
        let InnerOver {
            parent,
            start,
            run,
            spans,
        } = inner;
        backlog.batch.make_room(&parent)?;
        let attempt = parent.resumed(start, run)?;
        Frame::hand_on(
            rt,
            parent,
            attempt,
            Some(spans),
            &mut backlog.batch,
            &mut backlog.made,
        )
    }

    /// Decides what becomes of the parked releases of the frame of a backlog that was brought, for whose lock it may
    /// wait. If all that is left to do in the frame is parked, the first release goes on that is parked on a semaphore
    /// with a unit, and is returned; or, where there is none or a start has faulted, all are dropped, and this is in
    /// the backlog then. Else they wait, and the backlog is of no frame. If an allocation fails, what is parked may be
    /// given up, so that the run is never closed.
    pub fn settle<R: Wait>(rt: &R, backlog: &mut Backlog<J>) -> Result<Option<Release<J>>, NoMemory>
        requires { backlog.old.fates ≡ [] }
        ensures ok { IfOk result (SettlesFrame backlog.old.frames backlog.new) }
        ensures err { OnErr result (backlog.new ≡ backlog_view [] []) }
    {
        backlog.batch.settle(rt)
    }
}
