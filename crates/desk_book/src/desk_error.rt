// Why a desk refuses an ask.

/// Why a desk refuses an ask. The reasons are looked at in this order.
#[derive(Clone, Copy, Debug, PartialEq, Eq)]
pub enum DeskError {
    /// The graph that isn't there.
    NoSuchGraph(u32),
    /// More rounds than `MAX_TIMES`.
    TooOften(u64),
    /// The desk has as many asks as it takes: `MAX_ASKS`.
    Full(u64),
    /// An allocation failed.
    NoMemory,
}
