//! The top call of the program: from the command line, the texts and the streams that are handed in to a status.
//!
//! The layer above sees `flow_main` and its `CallResult`; `call_status` has the statuses and their lines. The
//! definitions stand in `specs/`: `Requests` says what a graph file asks for and why a call stops before its run,
//! `Reads` which reads failed, `RoundTexts` which rounds are asked for and what is written of them, `PlainRounds` which
//! they are by one thread for a plan without conditions, `Profiles` what a profile of them is, `PlainProfiles` what it
//! has of each task of such a plan, `Watched` what watchers are told, `Judgements` what a judgement of a journal comes
//! to, `Checks` what a check of a graph comes to, `Upgrades` what an upgrade of its file comes to, `PlanFiles` how both
//! end, `Generated` which generated graph is run and what is written of it, `Counted` what a count of lines comes to,
//! `Answers` how a call ends, `Completion` what it needs to do all that it is asked for, and `Plainly` what it does
//! with a plan without conditions. What a command line asks for is said by `command_line`, what a report is by
//! `report_laws`.
#![tactic(auto)]

mod call;
mod check_command;
mod conclusion;
mod count_command;
mod fronts;
mod generate_command;
mod inputs;
mod judge_command;
mod number_line;
mod profile_command;
mod report;
mod round_ends;
mod run_command;
mod upgrade_command;
mod workers;

pub use call::{CallResult, flow_main};
pub use conclusion::{Conclusion, GraphFindings, GraphProfile};
pub use inputs::{FILE_LIMIT, TEXT_LIMIT};
pub use judge_command::JOURNAL_LIMIT;
