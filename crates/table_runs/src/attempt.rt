// What a release has come to before an entry but its Start is drawn.
ghost use Rattle.std.specs.Prelude.{◌≡◌, ◌+◌, ◌<◌, ◌≤◌, ◌^◌};

use super::open_start::OpenStart;
use super::table_run::Begun;
use join_tables::{Fresh, Running, SharedValue, Turn};
use journal_rules::{DropWhy, Why};
use outside_io::List;
use run_frame::{FrameRun, Job};

/// A start that is to end, with the edges that its End gives and its value.
#[derive(Drop)]
pub struct Ending<V> {
    pub running: Running<V>,
    pub gives: List<u32>,
    pub value: SharedValue<V>,
    /// Whether its work was a run.
    pub inner: bool,
}

/// What is to become of a release.
#[derive(Drop)]
pub enum Outcome<V> {
    /// Its task has started and done its work.
    Ends(Ending<V>),
    /// Its task has started, and its work failed.
    Faults(Running<V>, Why),
    /// Its task may not start.
    Drops(Turn<V>, DropWhy),
}

/// A release that was taken up, whose work is done where it had to be.
#[derive(Drop)]
pub struct Attempt<J: Job> {
    pub outcome: Outcome<J::V>,
    /// The next release of the task, by tokens that were left.
    pub again: Option<Fresh<J::V>>,
    /// The run that was made in place of the work.
    pub inner: Option<FrameRun<J>>,
}

/// A start in place of whose work a run has begun.
#[derive(Drop)]
pub struct InnerBegun<J: Job> {
    pub begun: Begun<J>,
    pub start: OpenStart<J>,
    /// The next release of the task, by tokens that were left.
    pub again: Option<Fresh<J::V>>,
}

/// What the work of a release has come to.
#[derive(Drop)]
pub enum Tried<J: Job> {
    /// It may be concluded.
    Done(Attempt<J>),
    /// A run has begun in its place, in which something is to be done.
    Inner(InnerBegun<J>),
}

impl<J: Job + Drop> Attempt<J> {
    ghost use Rattle.table_runs.specs.Attempts.{edges_due, room_due};

    /// How many releases can come of it.
    pub fn room(&self) -> usize
        ensures room { result ≡ room_due self.now }
        ensures few { result ≤ 2 ^ 63 }
    {
        match self.again {
            Some(_) => self.outcome.edges() + 1,
            None => self.outcome.edges(),
        }
    }
}

impl<V: Drop> Outcome<V> {
    ghost use Rattle.table_runs.specs.Attempts.{edges_due};

    // How many edges are to be given.
    fn edges(&self) -> usize
        ensures edges { result ≡ edges_due self.now }
        ensures few { result < 2 ^ 63 }
    {
        match self {
            Outcome::Ends(ending) => ending.gives.as_slice().len(),
            Outcome::Faults(_, _) => 0,
            Outcome::Drops(_, _) => 0,
        }
    }
}
