// What becomes of the releases of a table.
use crate::parts::FoundParts;
use crate::turns::EndedStart;
use journal_rules::{Cause, DropWhy, Why};

/// A start of a task that faulted: its place in the journal, what it found, and the place of its Fault.
#[derive(Drop)]
pub struct Failure<V> {
    pub task: u32,
    pub cause: Cause,
    pub start: u64,
    pub found: FoundParts<V>,
    pub place: u64,
    pub why: Why,
}

/// A release that was dropped, and the place of its Drop in the journal.
#[derive(Drop)]
pub struct Dropping {
    pub task: u32,
    pub cause: Cause,
    pub place: u64,
    pub why: DropWhy,
}

/// What became of a release.
#[derive(Drop)]
pub enum Fate<V> {
    /// The task started and ended.
    Ended(EndedStart<V>),
    /// The task started and faulted.
    Faulted(Failure<V>),
    /// The release was dropped.
    Dropped(Dropping),
    /// The releases of a rest were dropped, in this order.
    AllDropped(Vec<Dropping>),
}
