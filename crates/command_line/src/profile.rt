// The command `profile`.
ghost use Rattle.std.specs.Prelude.{◌≡◌, map, IfOk, IfErr, Some, None, option_map, option_and_then};
ghost use Rattle.std.specs.String.{string_bytes};
ghost use Rattle.clap.specs.Words.{app_of, rows_of, found_of};
ghost use Rattle.command_line.specs.Requests.{profile, profile_app, profile_in, rows_in};
ghost use Rattle.command_line.specs.Rounds.{asked_rounds};

use super::matches::matches_in;
use super::options::{RunOptions, options_of, runs_command};
use super::request::ArgumentsError;
use clap::{ArgMatches, Command};
use std::alloc::{AllocError, Global};

/// Run the graph in a file, and count the starts, ends, faults and drops of each task.
#[derive(Clone, Copy)]
pub struct Profile<'w> {
    /// How it is to be run.
    pub options: RunOptions<'w>,
}

/// What the arguments after `profile` ask for.
pub(crate) fn read_profile<'w>(
    alloc: Global,
    arguments: &'w [String],
) -> Result<Profile<'w>, ArgumentsError>
    ensures ok { IfOk result
        (λ p. option_and_then profile_in (rows_in profile_app (map string_bytes arguments.entry.now))
        ≡ Some (profile p.options.file.now p.options.limit p.options.workers
        (asked_rounds p.options.rounds))) }
    ensures err { IfErr result
        (λ error. error ≡ ArgumentsError.Refused
        → option_and_then profile_in
        (rows_in profile_app (map string_bytes arguments.entry.now)) ≡ None) }
{
    let command = profile_command(alloc)?;
    let matches = matches_in(command, arguments)?;
    profile_of(&matches).ok_or(ArgumentsError::Refused)
}

// The command that reads the options of runs.
#[tactic(auto, unfolding(crate::specs::Requests::profile_app))]
fn profile_command<'w>(alloc: Global) -> Result<Command<'w>, AllocError>
    ensures { IfOk result (λ command. app_of command ≡ profile_app) }
{
    runs_command(alloc, "profile")
}

// The profile that these matches ask for.
fn profile_of<'w>(matches: &ArgMatches<'w>) -> Option<Profile<'w>>
    ensures { option_map (λ p. profile p.options.file.now p.options.limit p.options.workers
        (asked_rounds p.options.rounds)) result
        ≡ profile_in (rows_of (found_of matches.now)) }
{
    let options = options_of(matches)?;
    Some(Profile { options })
}
