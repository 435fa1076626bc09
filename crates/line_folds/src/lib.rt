//! Folds over the lines of a text.
//!
//! `count_lines_with` counts the lines in which a word occurs. One worker searches the whole text in one go. Several
//! draw chunks of lines: theirs is the fold `WordFold`, which has a line for each index: 1 where the word occurs in it,
//! else 0. A chunk is searched in one go. Where it begins and ends is found by a `LineIndex`, which keeps the place of
//! each 1,000th line.
//!
//! `specs/WordFolds.antt` says what the fold computes.
#![tactic(auto)]

mod line_index;
mod word_fold;

pub use line_index::LineIndex;
pub use word_fold::{WordFold, count_lines_with};
