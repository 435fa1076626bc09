//! The account of spans of a run by many workers, in runs inside one another.
//!
//! Each worker has a `Teller`, which counts the spans that it told and that a run's keeper has taken in. Each run that
//! goes on has its `RunSpans`: how many spans its keeper has taken in, and how many runs inside it were opened and came
//! back. A book ties them: where the outermost run has back each run that was opened in it, and all tellers are
//! collected, the spans that the tellers told are as many as its keeper took in (`settle`).
//!
//! # The protocol
//!
//! A book is a table of `atomic_table` whose words say nothing. What counts are the views of its seats, which have no
//! bytes, so a call costs at most three loads of a word that nobody writes. The rule of the table is a few equations
//! between totals over all views:
//!
//! - the spans told by tellers are as many as those noted by runs;
//! - for each depth, the runs at the next depth, and those that came back, are as many as were opened;
//! - one run is at depth 0, and there are as many tellers as the book was made with.
//!
//! So a run that is given up, with its seat, is missing for good in the run around it, which then never has back all
//! that it opened.
#![tactic(auto)]

mod book;
mod view;

pub use book::{RunSpans, SpanBook, Tally, Teller};
