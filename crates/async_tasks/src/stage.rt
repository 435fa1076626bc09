// How far a task is.
use std::sync::Arc;

/// How far a task is.
#[derive(Drop)]
pub enum Stage<V> {
    /// It isn't started.
    Waiting,
    /// It is started, and has no end.
    Open,
    /// It ended with this value.
    Over(Arc<V>),
}
