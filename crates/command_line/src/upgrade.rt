// The command `upgrade`.
ghost use Rattle.std.specs.Prelude.{◌≡◌, map, IfOk, IfErr, Some, None, option_map, option_and_then};
ghost use Rattle.std.specs.String.{string_bytes};
ghost use Rattle.clap.specs.Words.{app_of, rows_of, found_of};
ghost use Rattle.command_line.specs.Requests.{upgrade, upgrade_app, upgrade_in, rows_in};

use super::commands::{bare_command, with_required};
use super::matches::matches_in;
use super::request::ArgumentsError;
use clap::{ArgMatches, Command};
use std::alloc::{AllocError, Global};

/// Write the graph in a file as a graph file of the newest version.
#[derive(Clone, Copy)]
pub struct Upgrade<'w> {
    /// The name of the graph file.
    pub file: &'w str,
}

/// What the arguments after `upgrade` ask for.
pub(crate) fn read_upgrade<'w>(
    alloc: Global,
    arguments: &'w [String],
) -> Result<Upgrade<'w>, ArgumentsError>
    ensures ok { IfOk result
        (λ u. option_and_then upgrade_in (rows_in upgrade_app (map string_bytes arguments.entry.now))
        ≡ Some (upgrade u.file.now)) }
    ensures err { IfErr result
        (λ error. error ≡ ArgumentsError.Refused
        → option_and_then upgrade_in
        (rows_in upgrade_app (map string_bytes arguments.entry.now)) ≡ None) }
{
    let command = upgrade_command(alloc)?;
    let matches = matches_in(command, arguments)?;
    upgrade_of(&matches).ok_or(ArgumentsError::Refused)
}

// `upgrade FILE`
#[tactic(auto, unfolding(crate::specs::Requests::upgrade_app))]
fn upgrade_command<'w>(alloc: Global) -> Result<Command<'w>, AllocError>
    ensures { IfOk result (λ command. app_of command ≡ upgrade_app) }
{
    with_required(alloc, bare_command(alloc, "upgrade"), "file")
}

// The upgrade that these matches ask for.
#[tactic(auto, using(crate::proofs::Reading::first_in_rows))]
fn upgrade_of<'w>(matches: &ArgMatches<'w>) -> Option<Upgrade<'w>>
    ensures { option_map (λ u. upgrade u.file.now) result
        ≡ upgrade_in (rows_of (found_of matches.now)) }
{
    let file = matches.get_str("file")?;
    Some(Upgrade { file })
}
