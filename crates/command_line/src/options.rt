// What `run` and `profile` read alike.
ghost use Rattle.std.specs.Prelude.{◌≡◌, ◌<◌, ◌≤◌, ℕ, List, IfOk, option_map};
ghost use Rattle.clap.specs.Words.{app_of, rows_of, found_of};
ghost use Rattle.command_line.specs.Requests.{Asked, AskedRounds, asked_with, most_rounds, runs_app};
ghost use Rattle.command_line.specs.Rounds.{asked_rounds};
ghost use Rattle.command_line.specs.declared.numbers.TheConstants.{GREATEST_LIMIT, GREATEST_TIMES, GREATEST_WORKERS};

use super::commands::{bare_command, with_option, with_required};
use super::numbers::{GREATEST_LIMIT, GREATEST_TIMES, GREATEST_WORKERS, limit_of, workers_of};
use super::rounds::{Rounds, rounds_of};
use clap::{ArgMatches, Command};
use std::alloc::{AllocError, Global};

/// How the graph in a file is to be run.
#[derive(Clone, Copy)]
pub struct RunOptions<'w> {
    /// The name of the graph file.
    pub file: &'w str,
    /// How many starts a round may have, from 1 to 1,000,000.
    pub limit: u64,
    /// By how many workers it is run, from 1 to 16.
    pub workers: u32,
    /// How often it is run.
    pub rounds: Rounds<'w>,
    pub ghost within_limit: { limit ≤ GREATEST_LIMIT },
    pub ghost some_workers: { (0 < workers) × (workers ≤ GREATEST_WORKERS) },
    pub ghost within_times: { most_rounds (asked_rounds rounds) ≤ GREATEST_TIMES },
}

/// `NAME FILE [--limit N] [--workers N] [--times N] [--until WORD]`
pub(crate) fn runs_command<'w>(alloc: Global, name: &'w str) -> Result<Command<'w>, AllocError>
    ensures { IfOk result (λ command. app_of command ≡ runs_app name.entry.now) }
{
    let command = with_required(alloc, bare_command(alloc, name), "file")?;
    let command = with_option(alloc, command, "limit")?;
    let command = with_option(alloc, command, "workers")?;
    let command = with_option(alloc, command, "times")?;
    with_option(alloc, command, "until")
}

/// The options that these matches have.
#[tactic(auto, using(crate::proofs::Reading::first_in_rows))]
pub(crate) fn options_of<'w>(matches: &ArgMatches<'w>) -> Option<RunOptions<'w>>
    ensures { (make : List ℕ → ℕ → ℕ → AskedRounds → Asked)
        → option_map (λ o. make o.file.now o.limit o.workers (asked_rounds o.rounds)) result
        ≡ asked_with make (rows_of (found_of matches.now)) }
{
    let file = matches.get_str("file")?;
    let limit = limit_of(matches.get_str("limit"))?;
    let workers = workers_of(matches.get_str("workers"))?;
    let rounds = rounds_of(matches.get_str("times"), matches.get_str("until"))?;
    Some(RunOptions {
        file,
        limit,
        workers,
        rounds,
    })
}
