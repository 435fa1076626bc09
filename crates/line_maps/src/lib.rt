//! A text mapped line by line: an operation done to each of its lines, as a fold.
//!
//! `LineFold` has a line of a text for each index. Its value there is what the operation makes of the text of that line
//! alone, and values are joined one behind the other. `specs/LineMaps.antt` says so.
#![tactic(auto)]

mod line_fold;

pub use line_fold::LineFold;
