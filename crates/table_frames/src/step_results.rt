// What a beginning, a step and a bringing come to.
use super::closed_run::ClosedRun;
use super::release::Release;
use join_tables::{Keeper, Turn};
use run_frame::Job;
use std::snapshot::Snapshot;

/// The releases that a beginning or a step has made in its frame, and what is now with the run.
#[derive(Drop)]
pub struct Stepped<J: Job> {
    pub released: Vec<Release<J>>,
    pub state: State<J>,
}

/// What is with the run of a backlog that was brought.
#[derive(Drop)]
pub struct Brought<J: Job> {
    pub state: State<J>,
    /// For clauses alone: the keeper of the run when it had taken the backlog in. `None` where nothing was in it, or
    /// where it is laid aside since a run is open inside the frame.
    pub keeper: Option<Snapshot<Keeper<J::V>>>,
}

/// What is with a run after a step or a bringing.
#[derive(Drop)]
pub enum State<J: Job> {
    /// It goes on.
    Went,
    /// The release waits for a unit of a semaphore. The turn is for clauses alone.
    Parked(Snapshot<Turn<J::V>>),
    /// A run inside it has begun in place of a task's work, with these first releases. The task's start is open until
    /// that run is over.
    Inner(Vec<Release<J>>),
    /// It is over. The start whose work it was has ended or faulted, and these releases were made in the run around it.
    Resumed(Vec<Release<J>>),
    /// Nothing is left to do. The run is complete.
    Closed(ClosedRun<J>),
}
