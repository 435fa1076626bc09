// What a book of tasks is told, and what happened in it.
use outside_io::List;

/// An add: who added the task, its number, the tasks after which it runs, and how many events there were before it.
#[derive(Drop)]
pub struct AddRow {
    pub caller: u32,
    pub id: u32,
    pub after: List<u32>,
    pub place: u64,
}

/// What happened to a task.
#[derive(Clone, Copy, Debug, PartialEq, Eq)]
pub enum TaskEvent {
    /// It was started.
    Started(u32),
    /// It ended, and has a value.
    Ended(u32),
}
