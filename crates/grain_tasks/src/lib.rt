//! Folds over a range of indices: a loop over the range is cut into chunks, whose results are joined.
//!
//! A fold (`Fold`) has a value for each index, a unit and a join, and keeps laws: on the values that it allows the
//! join is associative and the unit is neutral. Its plain fold is the unit joined with the values at 0, 1 and so
//! on, in order. A for-each and a transform are folds whose join is concatenation.
//!
//! - `ChunkJob`: static chunks, each a task of a job without edges. Nothing is cut short in a finished run of it, and
//!   what that is gathered to is the plain fold.
//! - `ChunkRow`: chunks that several seats draw, each by one addition on one atomic word. Where all seats found the
//!   row drawn and what they drew is gathered, their chunks have each index once and no other.
//! - `reduce_drawn`: several threads draw chunks of a row and fold them, and the results are joined in the order of
//!   their places. That is the plain fold, whatever the size of a chunk, the number of workers and the order of
//!   their turns.
//!
//! # The protocol of a row
//!
//! A row is a table of `atomic_table` with one word in use, the next number to be drawn. A seat's view, which has
//! no bytes, is what it has drawn. The rule says that each index below the word and the count is in one chunk of
//! one view, and no other is. A seat that finds the word past the count has drawn all it can; it draws no more, so
//! the word can't wrap. Seats are counted: what stands for as many seats as the row has stands for all, and learns
//! at a load of the word what they drew together.
//!
//! The definitions are in `specs/`, in this order: `Folds`, `Chunks`, `ChunkWork`, `Rows`, `Draws`.
#![tactic(auto)]

mod chunk;
mod chunk_job;
mod chunk_values;
mod errors;
mod fold;
mod reduce;
mod row;
mod row_view;

pub use chunk::Chunk;
pub use chunk_job::{ChunkJob, runs_of_chunks_are_fine};
pub use errors::GrainError;
pub use fold::{Fold, chunks_join};
pub use reduce::reduce_drawn;
pub use row::{ChunkRow, Drained, Draw, Drawn, RowParts};
