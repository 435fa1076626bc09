// What a worker's steps have done and no keeper has recorded yet.
ghost use Rattle.std.specs.Prelude.{◌≡◌, ◌↔◌, ◌++◌, ◌∷◌, [], List, IsTrue};
ghost use Rattle.join_tables.specs.declared.fates.Fate.{Fate};

use super::frame_batch::FrameBatch;
use journal_rules::Span;
use run_frame::Job;
use semaphore_turns::ReadyTurn;
use std::alloc::Global;
use std::marker::Model;

/// What the steps of a worker have done in a frame and the frame hasn't recorded yet. While something is in it the run
/// of the frame isn't over. A backlog that is dropped is never recorded, so that the run is never closed. A step that
/// parked its release leaves the backlog of its frame too, so that what is parked is looked at when it is brought.
pub struct Backlog<J: Job> {
    pub(crate) alloc: Global,
    pub(crate) batch: FrameBatch<J>,
    // Room for what a step makes. Nothing is in it between two steps.
    pub(crate) made: Vec<ReadyTurn<J::V>>,
}

// Written out, so that it is proved here alone and not in each crate above.
impl<J: Job + Drop> Drop for Backlog<J> {
    fn drop(self) {
        let Backlog {
            alloc: _,
            batch,
            made,
        } = self;
        drop((batch, made));
    }
}

impl<J: Job> Model for Backlog<J> {
    ghost use Rattle.std.specs.Prelude.{◌≡◌, []};
    ghost use Rattle.table_frames.specs.Frames.{BacklogView};

    ghost Value = { BacklogView J J.V };

    ghost view = { λ backlog. backlog.batch.backlog };

    ghost invariant = { λ backlog. backlog.made.items ≡ [] };
}

impl<J: Job + Drop> Backlog<J> {
    ghost use Rattle.table_runs.specs.Spans.{span_of};
    ghost use Rattle.table_frames.specs.Frames.{backlog_view, depth_of};

    /// An empty backlog, of no frame. It takes no memory.
    pub fn new(alloc: Global) -> Backlog<J>
        ensures { result ≡ backlog_view [] [] }
    {
        Backlog {
            alloc,
            batch: FrameBatch::new(alloc),
            made: Vec::new(alloc),
        }
    }

    /// The span that the newest of it ended, if it ended one.
    pub fn newest_span(&self) -> Option<Span>
        ensures { (earlier : List (Fate J.V)) (fate : Fate J.V) → self.now.fates ≡ earlier ++ fate ∷ []
            → result ≡ span_of (depth_of self.now.frames) fate }
    {
        self.batch.newest_span()
    }

    /// Whether it is of no frame: no step was taken since it was brought.
    pub fn is_empty(&self) -> bool
        ensures { IsTrue result ↔ (self.now.frames ≡ []) }
    {
        self.batch.is_empty()
    }

    /// Whether nothing of it is still to be recorded by its frame.
    pub fn is_brought(&self) -> bool
        ensures { IsTrue result ↔ (self.now.fates ≡ []) }
    {
        self.batch.is_brought()
    }
}
