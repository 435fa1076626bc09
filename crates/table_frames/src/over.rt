// Runs that are over.
ghost use Rattle.std.specs.Prelude.{◌≡◌, if◌then◌else◌, [], List};
ghost use Rattle.table_runs.specs.RunKeys.{FrameKey};
ghost use Rattle.table_frames.specs.inside.Overs.{frames_after};

use super::closed_run::ClosedRun;
use super::frame::Frame;
use join_tables::Keeper;
use run_frame::{FrameRun, Job};
use span_book::RunSpans;
use std::snapshot::Snapshot;
use std::sync::Arc;
use table_runs::OpenStart;

/// A run inside another that is over, with the account of its spans, the frame around its own, and the start there
/// whose work it was.
#[derive(Drop)]
pub struct InnerOver<J: Job> {
    pub parent: Arc<Frame<J>>,
    pub start: OpenStart<J>,
    pub run: FrameRun<J>,
    pub spans: RunSpans,
}

/// Whether the run of a frame is over.
#[derive(Drop)]
pub enum Over<J: Job> {
    No,
    /// It is, and it is in no other.
    Alone(ClosedRun<J>),
    /// It is, and it is inside another.
    Inside(InnerOver<J>),
}

impl<J: Job> Over<J> {
    /// Whether it is, and it is inside another.
    pub fn is_inside(&self) -> bool
        ensures { (frames : List (FrameKey J)) → frames_after frames self.now
            ≡ (if result then [] else frames) }
    {
        match self {
            Over::No => false,
            Over::Alone(_) => false,
            Over::Inside(_) => true,
        }
    }
}

/// What is with the run of a frame to which turns were given.
#[derive(Drop)]
pub struct Kept<J: Job> {
    pub over: Over<J>,
    /// The keeper as it is then, for clauses alone. `None` where it has taken in none.
    pub keeper: Option<Snapshot<Keeper<J::V>>>,
}
