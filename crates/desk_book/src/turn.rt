// How far an ask is.

/// How far an ask is.
#[derive(Clone, Copy, Debug, PartialEq, Eq)]
pub enum Turn {
    /// Nobody took it.
    Waiting,
    /// It was taken, and has not ended.
    Open,
    /// It ended, and whether with all of its rounds.
    Over(bool),
}
