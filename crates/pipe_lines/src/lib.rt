//! Pipelines: tokens go through a row of pipes over several lines. A serial pipe takes one token at a time and in
//! order, a parallel pipe any, and a token may be deferred until others have passed.
//!
//! The layer above sees the net of a pipeline as a function of its lines and pipes, `pipe_net` in `specs/PipeNet.antt`,
//! and the order in which tokens pass the first pipe as a function of their number and of what defers them,
//! `pass_order` in `specs/PassOrder.antt`. That a run of the net keeps this order is another crate's affair.
#![tactic(auto)]

mod deferral;
mod gate;
mod laws;
mod net;
mod order;
mod passing;
mod pipeline;
mod tags;
mod waits;

pub use deferral::{
    DeferRow, MAX_DEFER_ROWS, MAX_TARGET, MAX_TARGETS, MAX_TOKENS, are_defer_rows, is_deferred,
};
pub use gate::Gate;
pub use laws::{all_tokens_pass, tokens_pass_in_turn, tokens_pass_once};
pub use net::pipe_net;
pub use order::{Order, Passed, pass_order};
pub use pipeline::{MAX_LINES, MAX_PIPES, PipeError, PipeSpec, spec_fault};
pub use tags::along_pipes;
