//! Claims on the definitions of several crates, computed on small examples.
//!
//! A claim states what a definition comes to on one example, and the prover computes it. The claims are here, above the
//! crates whose definitions they compute, so that a further claim doesn't have those crates proved again.
//!
//! The functions are on journals that were worked out by hand (`specs/WorkedNets.antt`, `specs/WorkedJournals.antt`).
//! Each has an empty body. Its contract says that journals are legal and finished, or which rule an entry breaks, and
//! that it breaks no other. The other claims are lemmas in `proofs/`:
//!
//! - `WorkedSinks`, `WorkedSources`: sinks, sources of texts, streams, the inputs of a start, what a watcher was told;
//! - `WorkedBuilder`: what the builder of nets answers, and which nets are well formed;
//! - `WorkedMachine`, `WorkedSteps`: what waits, what a machine's steps do, the break of each rule, the verdict;
//! - `WorkedFrames`, `WorkedRows`: what a job's works may come to, where its inner runs are, and what the beginning and
//!   the steps of a frame come to;
//! - `WorkedRuns`: how a run over a table begins, what a release comes to there, and which turns are done;
//! - `WorkedSpans`: the spans that outcomes end, what books of spans, tellers and runs say, and the rule of a book;
//! - `WorkedSeats`: which lock, register or list a pass, a book, a ticket or an owner is of;
//! - `WorkedYards`: what is parked in a yard, before and after one list changed, and which yard a pass is of;
//! - `WorkedSlots`: in which order the parcels of a slot are taken, and what a seat that took a slot gives back;
//! - `WorkedTurns`: the units that turns of a table hold, what becomes of releases, how a table begins, and when a
//!   keeper tells a whole run;
//! - `WorkedEntries`: which tasks may be released, the one journal of the entries that seats have, when fates tell a
//!   run, and what batches, shares and inputs say;
//! - `WorkedEndValues`: the values of Ends that starts find and that a keeper has, and when they agree;
//! - `NumbersFound`: where two numbers that a step of a rest may find leave the same notes, the same is answered for
//!   both;
//! - `WorkedLines`: lines without an end, and words in them;
//! - `WorkedGraphFiles`, `WorkedGraphJson`: which plan a graph file stands for, what is refused first, and how a plan
//!   is written.
#![tactic(auto)]

mod finished_runs;
mod refused_entries;
mod wrong_inputs;

pub use finished_runs::{
    choosing_runs, chosen_by_indices, dropped_runs, kept_runs, over_runs, routed_run, strong_runs,
    unit_runs, what_waits,
};
pub use refused_entries::{
    not_chosen, not_distinct, not_open, not_released, out_of_range, over_units,
    past_limit_or_without_cause,
};
pub use wrong_inputs::{starts_with_wrong_inputs, unfinished};
