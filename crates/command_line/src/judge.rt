// The command `judge`.
ghost use Rattle.std.specs.Prelude.{◌≡◌, ◌≤◌, map, IfOk, IfErr, Some, None, option_map, option_and_then};
ghost use Rattle.std.specs.String.{string_bytes};
ghost use Rattle.clap.specs.Words.{app_of, rows_of, found_of};
ghost use Rattle.command_line.specs.Requests.{judge, judge_app, judge_in, rows_in};
ghost use Rattle.command_line.specs.declared.numbers.TheConstants.{GREATEST_LIMIT};

use super::commands::{bare_command, with_option, with_required};
use super::matches::matches_in;
use super::numbers::{GREATEST_LIMIT, limit_of};
use super::request::ArgumentsError;
use clap::{ArgMatches, Command};
use std::alloc::{AllocError, Global};

/// Judge the journal in a file by the graph in another.
#[derive(Clone, Copy)]
pub struct Judge<'w> {
    /// The name of the graph file.
    pub file: &'w str,
    /// The name of the journal file.
    pub journal: &'w str,
    /// How many starts the journal may have, from 1 to 1,000,000.
    pub limit: u64,
    pub ghost within_limit: { limit ≤ GREATEST_LIMIT },
}

/// What the arguments after `judge` ask for.
pub(crate) fn read_judge<'w>(
    alloc: Global,
    arguments: &'w [String],
) -> Result<Judge<'w>, ArgumentsError>
    ensures ok { IfOk result
        (λ j. option_and_then judge_in (rows_in judge_app (map string_bytes arguments.entry.now))
        ≡ Some (judge j.file.now j.journal.now j.limit)) }
    ensures err { IfErr result
        (λ error. error ≡ ArgumentsError.Refused
        → option_and_then judge_in
        (rows_in judge_app (map string_bytes arguments.entry.now)) ≡ None) }
{
    let command = judge_command(alloc)?;
    let matches = matches_in(command, arguments)?;
    judge_of(&matches).ok_or(ArgumentsError::Refused)
}

// `judge FILE JOURNAL [--limit N]`
fn judge_command<'w>(alloc: Global) -> Result<Command<'w>, AllocError>
    ensures { IfOk result (λ command. app_of command ≡ judge_app) }
{
    let command = with_required(alloc, bare_command(alloc, "judge"), "file")?;
    let command = with_required(alloc, command, "journal")?;
    with_option(alloc, command, "limit")
}

// The judgement that these matches ask for.
#[tactic(auto, using(crate::proofs::Reading::first_in_rows))]
fn judge_of<'w>(matches: &ArgMatches<'w>) -> Option<Judge<'w>>
    ensures { option_map (λ j. judge j.file.now j.journal.now j.limit) result
        ≡ judge_in (rows_of (found_of matches.now)) }
{
    let file = matches.get_str("file")?;
    let journal = matches.get_str("journal")?;
    let limit = limit_of(matches.get_str("limit"))?;
    Some(Judge {
        file,
        journal,
        limit,
    })
}
