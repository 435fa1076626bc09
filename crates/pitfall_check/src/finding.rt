// What the check finds.

/// A way in which a net can go wrong. Those with a number name the task.
#[derive(Clone, Copy, Debug, PartialEq, Eq)]
pub enum Finding {
    /// There are tasks, and each has an in-edge, so that nothing begins.
    NoSource,
    /// The task has strong and weak in-edges.
    Mixed(u32),
    /// The task has weak in-edges from two different tasks.
    ManyConditions(u32),
    /// The task is on a cycle of strong edges: each of its tasks waits for another.
    StrongCycle(u32),
    /// No walk leads from a task without in-edges to the task.
    NeverReached(u32),
}
