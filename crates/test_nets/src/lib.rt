//! Tests of nets: of their builder, of pipelines, of the machine and the judge, and of the pitfall check. There is
//! nothing here but tests, and claims on the definitions of pitfalls in `proofs/`.
//!
//! The machine and the judge are held against runs that were worked out by hand. What the judge says of a table of
//! small nets, at each step, right or wrong, is counted and held against the counts of a slow judge in Python. The
//! machine checks a step by the same calls as the judge, so it isn't walked again. The check is held against plain
//! loops on all nets of at most three tasks and four edges.
#![tactic(auto)]

#[cfg(test)]
mod builder_calls;
#[cfg(test)]
mod exhaustive_steps;
#[cfg(test)]
mod nets;
#[cfg(test)]
mod pipelines;
#[cfg(test)]
mod pitfalls;
#[cfg(test)]
mod queries;
#[cfg(test)]
mod small_runs;
#[cfg(test)]
mod steps;
#[cfg(test)]
mod walks;
