// The command `run`.
ghost use Rattle.std.specs.Prelude.{◌≡◌, map, IfOk, IfErr, Some, None, option_map, option_and_then};
ghost use Rattle.std.specs.String.{string_bytes};
ghost use Rattle.clap.specs.Words.{app_of, rows_of, found_of};
ghost use Rattle.command_line.specs.Requests.{is_set, run, run_app, run_in, rows_in};
ghost use Rattle.command_line.specs.Rounds.{asked_rounds};

use super::commands::with_flag;
use super::matches::matches_in;
use super::options::{RunOptions, options_of, runs_command};
use super::request::ArgumentsError;
use clap::{ArgMatches, Command};
use std::alloc::{AllocError, Global};

/// Run the graph in a file.
#[derive(Clone, Copy)]
pub struct Run<'w> {
    /// How it is to be run.
    pub options: RunOptions<'w>,
    /// Whether the journals of its runs are written in place of their reports.
    pub journal: bool,
}

/// What the arguments after `run` ask for.
pub(crate) fn read_run<'w>(
    alloc: Global,
    arguments: &'w [String],
) -> Result<Run<'w>, ArgumentsError>
    ensures ok { IfOk result
        (λ r. option_and_then run_in (rows_in run_app (map string_bytes arguments.entry.now))
        ≡ Some (run r.options.file.now r.options.limit r.options.workers
        (asked_rounds r.options.rounds) r.journal)) }
    ensures err { IfErr result
        (λ error. error ≡ ArgumentsError.Refused
        → option_and_then run_in (rows_in run_app (map string_bytes arguments.entry.now)) ≡ None) }
{
    let command = run_command(alloc)?;
    let matches = matches_in(command, arguments)?;
    run_of(&matches).ok_or(ArgumentsError::Refused)
}

// The command that reads the options of runs, and `--journal`.
fn run_command<'w>(alloc: Global) -> Result<Command<'w>, AllocError>
    ensures { IfOk result (λ command. app_of command ≡ run_app) }
{
    let command = runs_command(alloc, "run")?;
    with_flag(alloc, command, "journal")
}

// The run that these matches ask for.
#[tactic(auto, using(crate::proofs::Reading::first_in_rows))]
fn run_of<'w>(matches: &ArgMatches<'w>) -> Option<Run<'w>>
    ensures { option_map (λ r. run r.options.file.now r.options.limit r.options.workers
        (asked_rounds r.options.rounds) r.journal) result
        ≡ run_in (rows_of (found_of matches.now)) }
{
    let options = options_of(matches)?;
    let journal = is_set(matches.get_str("journal"));
    Some(Run { options, journal })
}

// Whether a flag is among the arguments, by what `clap` says of it.
fn is_set(text: Option<&str>) -> bool
    ensures { result ≡ is_set (option_map (λ t. t.now) text.entry) }
{
    match text {
        Some(text) => text == "true",
        None => false,
    }
}
