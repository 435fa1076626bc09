// The span of a start.

/// A start from its Start to its End or Fault, both by their places in the journal of its run.
#[derive(Clone, Copy, Debug, PartialEq, Eq)]
pub struct Span {
    /// How many runs the run is inside of: 0 for one that is in none.
    pub depth: u32,
    /// The task that started.
    pub task: u32,
    /// The place of the Start.
    pub start: u64,
    /// The place of the End or Fault.
    pub end: u64,
}
