// What a release that may be taken up is.
use join_tables::{Fresh, Turn};

/// Whether a release is new or was parked.
#[derive(Drop)]
pub enum ReadyKind<V> {
    /// It has collected no token.
    Fresh(Fresh<V>),
    /// It was parked on this semaphore and is woken. It has its tokens, and no unit.
    Woken(Turn<V>, u32),
}
