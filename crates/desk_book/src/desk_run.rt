// Finished desks.
use crate::entry::DeskEntry;
use outside_io::List;
use run_frame::{FrameRun, Valued};

/// What a desk came to: its history, and the rounds of each ask, by its number.
#[derive(Drop)]
pub struct DeskRun<J: Valued> {
    pub history: List<DeskEntry>,
    pub runs: List<List<FrameRun<J>>>,
}
