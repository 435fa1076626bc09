// The pipelines of tasks.
use crate::ops::TextOp;
use outside_io::List;
use pipe_lines::{DeferRow, PipeSpec};

/// What a pipe does with the text of a token.
#[derive(Drop)]
pub enum LineOp {
    /// An operation on the text.
    Text(TextOp),
    /// The text with the token's number and a space before each line.
    Number,
    /// The text with the token's place in the order and a space before each line.
    Stamp,
}

/// A pipeline for the parts of a text.
#[derive(Drop)]
pub struct PipePlan {
    /// How many lines there are, and of each pipe whether it is serial.
    pub spec: PipeSpec,
    /// What each pipe does.
    pub ops: List<LineOp>,
    /// How many lines a part has: one at least and at most 1,000,000,000.
    pub chunk: u64,
    /// Which parts wait for others.
    pub defers: List<DeferRow>,
}
