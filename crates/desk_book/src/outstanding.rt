// What is outstanding at a desk.
use crate::entry::{Ask, DeskEntry};
use std::snapshot::Snapshot;

/// What a ticket of a desk is for. No code reads it.
#[derive(Drop)]
pub enum Outstanding {
    /// A caller's pass: what it has seen of the desk's history.
    Pass {
        caller: u32,
        seen: Snapshot<Vec<DeskEntry>>,
    },
    /// An ask that was taken and has not ended.
    Running {
        ask: Ask,
    },
}
