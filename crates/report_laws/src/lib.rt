//! What a run of a plan reports, and what it reports whatever the number of workers and the order in which they start
//! and end tasks: the second theorem.
//!
//! There is no code here but a law (`laws.rt`), the contract of an empty function. `plain_report` works the report
//! of a plan out by a recursion over its net. `same_report` says that each kept run of such a plan comes to its end
//! fine exactly where that recursion runs through, and then reports just that. The definitions are in `specs/`, in this
//! order: `Output` (the report of a run), `PlainReport`; `SmallPlans` has plans for examples.
//!
//! The layer above cites these words in its clauses.
#![tactic(auto)]

mod examples;
mod laws;

pub use examples::{circle_reports, kept_together_reports, nested_reports, plain_plans};
pub use laws::same_report;
