// The entries of a journal.
use outside_io::List;

/// What a task's release comes from.
#[derive(Clone, Copy, Debug, PartialEq, Eq)]
pub enum Cause {
    /// The task has no in-edge, and is released once.
    Source,
    /// Each strong in-edge holds a token, and one of each is used.
    Strong,
    /// The weak in-edge of this number holds a token, and it is used.
    Weak(u32),
}

/// What a start finds at one of the edges that released it.
#[derive(Clone, Copy, Debug, PartialEq, Eq)]
pub enum Part {
    /// The value of the End at this place.
    From(u64),
    /// The token with which the edge began.
    First,
    /// No value.
    Nothing,
}

/// Why a start faulted.
#[derive(Clone, Copy, Debug, PartialEq, Eq)]
pub enum Why {
    /// The value would have this many bytes, more than a value may have.
    Long(u64),
    /// The work would have this many parts, more than it may have.
    Wide(u64),
    /// This token waits for tokens that never pass.
    Unmet(u64),
    /// The inner run has a fault, or a drop at its limit or for want of a unit.
    Inner,
    /// A unit of this semaphore would be given back that isn't out.
    OverRelease(u32),
}

/// Why a release was dropped.
#[derive(Clone, Copy, Debug, PartialEq, Eq)]
pub enum DropWhy {
    /// A start of the run has faulted.
    Halted,
    /// The run has all the starts that it may have.
    Limit,
    /// This semaphore has no unit, and nothing runs that could give one back.
    Stuck(u32),
}

/// An event of a run. Its place in the journal is its position, from 0.
#[derive(Drop)]
pub enum Entry {
    /// A task started. `ins` has a part for each edge that released it.
    Start {
        task: u32,
        cause: Cause,
        ins: List<Part>,
    },
    /// The start at the place `start` ended and gave these edges a token each. `inner` says that its work
    /// was a run of its own.
    End {
        start: u64,
        gives: List<u32>,
        inner: bool,
    },
    /// The start at the place `start` faulted.
    Fault {
        start: u64,
        why: Why,
    },
    /// A release was used up without a start.
    Drop {
        task: u32,
        cause: Cause,
        why: DropWhy,
    },
}

/// The events of a run, in order.
pub type Journal = List<Entry>;
