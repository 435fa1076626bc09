// What is wrong with an entry, and what the judge says of a journal.

/// The rule that an entry breaks. Where it breaks several, the first in this order is reported (`IsRefusal`).
#[derive(Clone, Copy, Debug, PartialEq, Eq)]
pub enum Break {
    /// A task, an edge or a semaphore of that number isn't there.
    NoSuch,
    /// A release was dropped for want of a unit, and only such drops may follow.
    AfterStuck,
    /// The task has no unused release of that cause.
    NotReleased,
    /// The least semaphore that the task takes and that has no unit.
    OverUnits(u32),
    /// All the starts that the run may have are made.
    OverLimit,
    /// That index has no start, or its start is closed.
    NotOpen,
    /// The edges given don't fit the shape of the task, or only a nested task may end so.
    NotChosen,
    /// The least semaphore that the task puts and of which no unit is out.
    NothingOut(u32),
    /// A unit of that semaphore was out all along, or the task doesn't put it.
    NotOver,
    /// Nothing has faulted.
    NotHalted,
    /// Something runs or has faulted, the task doesn't take the semaphore, or it has a unit.
    NotStuck,
}

/// What the judge says of a journal.
#[derive(Clone, Copy, Debug, PartialEq, Eq)]
pub enum Verdict {
    /// It is legal as far as the net decides, and that of a finished run.
    Complete,
    /// It is legal as far as the net decides, and the run isn't finished.
    Legal,
    /// The entry at this index is the first that may not follow those before it, and why.
    Breaks(u64, Break),
}
