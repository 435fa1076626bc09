// What taking an ask comes to.
use crate::taken::Taken;

/// What taking an ask comes to.
#[derive(Drop)]
pub enum TakeAnswer {
    /// The first ask that might be taken was.
    Taken(Taken),
    /// Each ask that waits is of a graph of which another was taken and has not ended. This is the oldest that waits.
    Busy(u64),
    /// No ask waits.
    Empty,
}
