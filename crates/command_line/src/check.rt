// The command `check`.
ghost use Rattle.std.specs.Prelude.{◌≡◌, map, IfOk, IfErr, Some, None, option_map, option_and_then};
ghost use Rattle.std.specs.String.{string_bytes};
ghost use Rattle.clap.specs.Words.{app_of, rows_of, found_of};
ghost use Rattle.command_line.specs.Requests.{check, check_app, check_in, rows_in};

use super::commands::{bare_command, with_required};
use super::matches::matches_in;
use super::request::ArgumentsError;
use clap::{ArgMatches, Command};
use std::alloc::{AllocError, Global};

/// Find how the graph in a file can go wrong.
#[derive(Clone, Copy)]
pub struct Check<'w> {
    /// The name of the graph file.
    pub file: &'w str,
}

/// What the arguments after `check` ask for.
pub(crate) fn read_check<'w>(
    alloc: Global,
    arguments: &'w [String],
) -> Result<Check<'w>, ArgumentsError>
    ensures ok { IfOk result
        (λ c. option_and_then check_in (rows_in check_app (map string_bytes arguments.entry.now))
        ≡ Some (check c.file.now)) }
    ensures err { IfErr result
        (λ error. error ≡ ArgumentsError.Refused
        → option_and_then check_in
        (rows_in check_app (map string_bytes arguments.entry.now)) ≡ None) }
{
    let command = check_command(alloc)?;
    let matches = matches_in(command, arguments)?;
    check_of(&matches).ok_or(ArgumentsError::Refused)
}

// `check FILE`
#[tactic(auto, unfolding(crate::specs::Requests::check_app))]
fn check_command<'w>(alloc: Global) -> Result<Command<'w>, AllocError>
    ensures { IfOk result (λ command. app_of command ≡ check_app) }
{
    with_required(alloc, bare_command(alloc, "check"), "file")
}

// The check that these matches ask for.
#[tactic(auto, using(crate::proofs::Reading::first_in_rows))]
fn check_of<'w>(matches: &ArgMatches<'w>) -> Option<Check<'w>>
    ensures { option_map (λ c. check c.file.now) result
        ≡ check_in (rows_of (found_of matches.now)) }
{
    let file = matches.get_str("file")?;
    Some(Check { file })
}
