// What is outstanding in a book of tasks.
use crate::history::AddRow;
use outside_io::List;
use std::snapshot::Snapshot;
use std::sync::Arc;

/// What a ticket of a book of tasks is for. No code reads more of it than the task.
#[derive(Drop)]
pub enum Outstanding<W, V> {
    /// A caller's pass: what it has seen of the book's rows.
    Pass {
        caller: u32,
        seen: Snapshot<Vec<AddRow>>,
    },
    /// An open start: its work, and what it found.
    Running {
        task: u32,
        work: Snapshot<Arc<W>>,
        ins: Snapshot<List<Arc<V>>>,
    },
    /// An end that was recorded: its task, and its index among the events.
    Recorded {
        task: u32,
        place: u64,
    },
}
