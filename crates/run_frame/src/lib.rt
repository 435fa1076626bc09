//! Jobs and their runs: what a job is, and which runs of it are legal.
//!
//! The layer above sees a job by its meanings (the ghost members of `Job`), and a run as plain data
//! (`FrameRun`) with the facts `Legal` and `IsKept`. The definitions are in `specs/`: `WorkRule`,
//! `NestedRule`, `Legal`, `Rows`. How a run comes about is another crate's affair (`table_frames`).
#![tactic(auto)]

mod end_values;
mod job;
mod run;

pub use end_values::{last_ends, values_by_place};
pub use job::{Answer, Done, Job, JobError, Valued};
pub use run::{FrameRun, InnerRow, ValueRow};
