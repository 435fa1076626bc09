// Turns of a frame that are done and not yet with its keeper.
ghost use Rattle.std.specs.Prelude.{◌≡◌, ◌≢◌, ◌↔◌, ◌⊎◌, ◌+◌, ◌++◌, ◌∷◌, [], List, IsTrue, IfOk, IfSome, OnOk, OnErr};
ghost use Rattle.join_tables.specs.declared.fates.Fate.{Fate};
ghost use Rattle.std.specs.Arc.{arc_value};
ghost use Rattle.table_frames.specs.Frames.{IsInnermost};
ghost use Rattle.table_runs.specs.AllowedFates.{IsAllowed};

use super::frame::Frame;
use super::over::{Kept, Over};
use super::release::Release;
use journal_rules::Span;
use outside_io::NoMemory;
use run_frame::Job;
use semaphore_turns::Settled;
use span_book::{RunSpans, Teller};
use std::alloc::Global;
use std::marker::Model;
use std::sync::{Arc, Wait};
use table_runs::{DoneTurn, DoneTurns, TableRun, span_of};

/// Turns of a frame that are done and not yet with its keeper. The job of the frame allows what became of each.
#[derive(Drop)]
pub struct FrameBatch<J: Job> {
    // Where a step was taken since the turns were given away.
    frame: Option<Arc<Frame<J>>>,
    done: DoneTurns<J>,
    // The run inside it that has come back, if one of the turns is of its start.
    returned: Option<RunSpans>,
}

impl<J: Job> Model for FrameBatch<J> {
    ghost use Rattle.table_frames.specs.inside.FrameBatches.{FrameBatchView};

    ghost Value = { FrameBatchView J J.V };

    ghost use Rattle.std.specs.Prelude.{◌≢◌, [], IfSome};
    ghost use Rattle.std.specs.Arc.{arc_value};
    ghost use Rattle.std.specs.Vec.{vec_capacity, vec_len};
    ghost use Rattle.table_frames.specs.Frames.{backlog_view, frames_around};
    ghost use Rattle.table_frames.specs.inside.FrameBatches.{AreDoneAt, IsBackOf};

    ghost view = { λ g. record {
      backlog = backlog_view (frames_around g.frame) g.done.batch.fates;
      room = g.done.batch.room;
      runs = vec_len g.done.inner;
      run_room = vec_capacity g.done.inner;
    } };

    ghost invariant = { λ g. AreDoneAt J.meaning (frames_around g.frame) g.done
        × IfSome g.frame (λ frame. arc_value frame ≢ [])
        × IsBackOf (frames_around g.frame) g.done g.returned };
}

impl<J: Job + Drop> FrameBatch<J> {
    ghost use Rattle.span_book.specs.SpanBooks.{teller_state};
    ghost use Rattle.table_runs.specs.Spans.{span_of, spans_in, spans_made};
    ghost use Rattle.table_frames.specs.Frames.{IsTellerOf, MayTake, backlog_view, depth_of};
    ghost use Rattle.table_frames.specs.BacklogResults.{SettlesFrame};
    ghost use Rattle.table_frames.specs.inside.FrameBatches.{HasBack, HasSpaceIn};
    ghost use Rattle.table_frames.specs.inside.Overs.{KeepsFates, frames_after};

    /// No turn, of no frame. It takes no memory.
    pub fn new(alloc: Global) -> FrameBatch<J>
        ensures { result.backlog ≡ backlog_view [] [] }
    {
        FrameBatch {
            frame: None,
            done: DoneTurns::new(alloc),
            returned: None,
        }
    }

    /// Whether it is of no frame.
    pub fn is_empty(&self) -> bool
        ensures { IsTrue result ↔ (self.now.backlog.frames ≡ []) }
    {
        self.frame.is_none()
    }

    /// Whether it has no turn.
    pub fn is_brought(&self) -> bool
        ensures { IsTrue result ↔ (self.now.backlog.fates ≡ []) }
    {
        self.done.is_empty()
    }

    /// Makes room for a turn more, which is of this frame.
    pub fn make_room(&mut self, frame: &Arc<Frame<J>>) -> Result<(), NoMemory>
        requires takes { MayTake self.old.backlog (arc_value frame.now) }
        requires some { arc_value frame.now ≢ [] }
        ensures ok { OnOk result (self.new.backlog
            ≡ backlog_view (arc_value frame.now) self.old.backlog.fates) }
        ensures room { OnOk result (HasSpaceIn self.new) }
        ensures err { OnErr result (self.new.backlog ≡ self.old.backlog) }
    {
        self.done.make_room()?;
        if self.frame.is_none() {
            self.frame = Some(Arc::try_clone(frame)?);
        }
        Ok(())
    }

    /// Adds a turn of the frame, for which there is room, with the run in place of its work that has come back.
    pub fn add(&mut self, run: &TableRun<J>, turn: DoneTurn<J>, returned: Option<RunSpans>)
        requires frame { IsInnermost run.now self.old.backlog.frames }
        requires table { turn.spent.table ≡ run.now.table }
        requires allowed { IsAllowed J.meaning run.now.job turn.spent.fate turn.inner }
        requires room { HasSpaceIn self.old }
        requires returned { HasBack self.old.backlog.frames (spans_made turn.inner) returned }
        requires one { IfSome returned (λ inner. self.old.backlog.fates ≡ []) }
        ensures { self.new.backlog
            ≡ backlog_view self.old.backlog.frames
            (self.old.backlog.fates ++ turn.spent.fate ∷ []) }
    {
        run.gather(&mut self.done, turn);
        self.returned = returned.or(self.returned.take());
    }

    /// Gives the turns to their frame, whose spans a teller told. With the last turn of the frame its run is given out.
    /// The batch is of no frame then if the run is inside another. An `Err` comes only if an allocation fails. Then all
    /// stays as it was, or the turns are gone and the run is never over.
    pub fn bring<R: Wait>(&mut self, rt: &R, teller: &mut Teller) -> Result<Kept<J>, NoMemory>
        requires teller { IsTellerOf self.old.backlog.frames teller.old }
        ensures keeps { IfOk result
            (KeepsFates J.meaning self.old.backlog.frames self.old.backlog.fates) }
        ensures ok { IfOk result (λ kept. self.new.backlog
            ≡ backlog_view (frames_after self.old.backlog.frames kept.over) []) }
        ensures told { OnOk result (teller.new ≡ teller_state teller.old.book
            (teller.old.told + spans_in self.old.backlog.fates)) }
        ensures teller { teller.new.book ≡ teller.old.book }
        ensures err { OnErr result
            ((self.new.backlog ≡ self.old.backlog)
            ⊎ (self.new.backlog ≡ backlog_view self.old.backlog.frames [])) }
    {
        let Some(frame) = self.frame.take() else {
            return Ok(Kept {
                over: Over::No,
                keeper: None,
            });
        };
        match frame.keep(rt, &mut self.done, &mut self.returned, teller) {
            Ok(kept) => {
                if kept.over.is_inside() {
                    return Ok(kept);
                }
                self.frame = Some(frame);
                Ok(kept)
            }
            Err(NoMemory) => {
                self.frame = Some(frame);
                Err(NoMemory)
            }
        }
    }

    /// The span that the newest turn ended, if it ended one.
    pub fn newest_span(&self) -> Option<Span>
        ensures { (earlier : List (Fate J.V)) (fate : Fate J.V)
            → self.now.backlog.fates ≡ earlier ++ fate ∷ []
            → result ≡ span_of (depth_of self.now.backlog.frames) fate }
    {
        let newest = self.done.batch.fates().last()?;
        match &self.frame {
            Some(frame) => span_of(newest, frame.depth()),
            None => None,
        }
    }

    /// Decides what becomes of the parked releases of its frame, of which it has no turn. It is of no frame then,
    /// unless all were dropped.
    pub fn settle<R: Wait>(&mut self, rt: &R) -> Result<Option<Release<J>>, NoMemory>
        requires { self.old.backlog.fates ≡ [] }
        ensures ok { IfOk result (SettlesFrame self.old.backlog.frames self.new.backlog) }
        ensures err { OnErr result (self.new.backlog ≡ backlog_view [] []) }
    {
        let Some(frame) = self.frame.take() else {
            return Ok(None);
        };
        let _is_empty = self.done.is_empty();
        match frame.settle_parked(rt)? {
            Settled::Waits => Ok(None),
            Settled::Goes(ready) => Ok(Some(Release { frame, ready })),
            Settled::Over(spent) => {
                self.done.make_room()?;
                frame.gather(&mut self.done, spent);
                self.frame = Some(frame);
                Ok(None)
            }
        }
    }
}
