//! Graphs of any size to measure with: `generate` makes a plan, and the text that it reads, from a number of layers.
//!
//! The layer above sees them as functions of that number: `generated_plan` in `specs/GeneratedPlan.antt` and
//! `generated_text` in `specs/GeneratedText.antt`, over the numbers that `specs/Draws.antt` draws. The plan keeps the
//! rules of plans.
#![tactic(auto)]

mod draws;
mod edges;
mod generated;
mod names;
mod nets;
mod ops;
mod text;

pub use generated::{Generated, MAX_LAYERS, generate};
