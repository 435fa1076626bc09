// Outermost runs that are over.
use run_frame::{FrameRun, Job};
use span_book::Tally;

/// A run in no other that is over, and the account of its spans in its book.
#[derive(Drop)]
pub struct ClosedRun<J: Job> {
    pub run: FrameRun<J>,
    pub spans: Tally,
}
