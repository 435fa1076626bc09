//! The order in which a pipeline starts its tokens, whatever the number of workers.
//!
//! There is no code here but laws (`laws.rt`), each the contract of an empty function. They are of every legal run of
//! the net of lines and pipes (`pipe_lines`) whose tasks answer as cells do (`AreCells` in `specs/Cells.antt`), also of
//! one inside another run. Each serial pipe starts the tokens in the order in which they pass the first pipe, deferral
//! included; also where a task faults, and where starts are dropped. So it is of the pipelines of texts in each kept
//! run of a plan's graph. The definitions are in `specs/`, in this order: `Cells`, `PipeRuns`, `Turns`, `Laws`,
//! `TextPipes`; what a cell finds and meets is in `text_tasks` (`specs/Cells.antt`).
#![tactic(auto)]

mod laws;

pub use laws::{
    lines_start_alone, lines_take_turns, pipes_keep_order, text_pipes_keep_order,
    tokens_pass_all_pipes,
};
