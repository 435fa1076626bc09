//! Runs of jobs by one thread and by crews, whose journals are judged. There is nothing here but tests. A case is a
//! line of a text and has a name, which a failing test tells.
//!
//! `job_cases.rt` says how a case is written, and `nets.rt` how its nets are. The cases are in `plain_cases.rt`,
//! `unit_cases.rt` and `inner_cases.rt`. `job_runs.rt` runs each over the frames of `table_frames`, in the orders of
//! `orders.rt`, and over the crews of `worker_seat`. `run_checks.rt` says what is asked of a run.
#![tactic(auto)]

#[cfg(test)]
mod data_rule;
#[cfg(test)]
mod inner_cases;
#[cfg(test)]
mod job_cases;
#[cfg(test)]
mod job_runs;
#[cfg(test)]
mod nets;
#[cfg(test)]
mod orders;
#[cfg(test)]
mod plain_cases;
#[cfg(test)]
mod run_checks;
#[cfg(test)]
mod unit_cases;
