//! Claims on the definitions of libraries that `flow` doesn't use, computed on small examples.
//!
//! As in the crate `claims`, each claim is a lemma in `proofs/` that states what a definition comes to on one example,
//! and the prover computes it. There is no code.
//!
//! - `WorkedHistories`: which histories of async tasks are right, each wrong one breaking one line of the definitions;
//! - `WorkedAsyncBooks`: what an add, a start and an end of a book of tasks change, what may be started, and what is
//!   refused;
//! - `WorkedAsyncPasses`: what passes, seats and tickets of such books say, and what finishing one comes to;
//! - `WorkedRunJournals`: the net and the journal of a run of such tasks, and which journals are whole;
//! - `WorkedDesks`: which histories of desks are right, whose turn it is, and which ask is the first that has not
//!   ended;
//! - `WorkedDeskBooks`: what asks, takes and ends change in the books of a desk, what a pass has seen, what is refused;
//! - `WorkedDeskRuns`: which rounds are kept of an ask, what is under a desk's lock, and what finishing a desk comes
//!   to;
//! - `WorkedServing`: what serving a desk comes to.
#![tactic(auto)]
