// The command `count`.
ghost use Rattle.std.specs.Prelude.{◌≡◌, ◌≤◌, ◌<◌, map, IfOk, IfErr, Some, None, option_map, option_and_then};
ghost use Rattle.std.specs.String.{string_bytes};
ghost use Rattle.clap.specs.Words.{app_of, rows_of, found_of};
ghost use Rattle.command_line.specs.Requests.{count, count_app, count_in, rows_in};
ghost use Rattle.command_line.specs.declared.numbers.TheConstants.{GREATEST_GRAIN, GREATEST_WORKERS};

use super::commands::{bare_command, with_option, with_required};
use super::matches::matches_in;
use super::numbers::{GREATEST_GRAIN, GREATEST_WORKERS, grain_of, workers_of};
use super::request::ArgumentsError;
use clap::{ArgMatches, Command};
use std::alloc::{AllocError, Global};

/// Count the lines of a text in which a word occurs.
#[derive(Clone, Copy)]
pub struct Count<'w> {
    /// The word.
    pub word: &'w str,
    /// The name of the text.
    pub file: &'w str,
    /// How many lines a chunk has at least, from 1 to 1,000,000.
    pub grain: u64,
    /// By how many workers the lines are counted, from 1 to 16.
    pub workers: u32,
    pub ghost within_grain: { (1 ≤ grain) × (grain ≤ GREATEST_GRAIN) },
    pub ghost some_workers: { (0 < workers) × (workers ≤ GREATEST_WORKERS) },
}

/// What the arguments after `count` ask for.
pub(crate) fn read_count<'w>(
    alloc: Global,
    arguments: &'w [String],
) -> Result<Count<'w>, ArgumentsError>
    ensures ok { IfOk result
        (λ c. option_and_then count_in (rows_in count_app (map string_bytes arguments.entry.now))
        ≡ Some (count c.word.now c.file.now c.grain c.workers)) }
    ensures err { IfErr result
        (λ error. error ≡ ArgumentsError.Refused
        → option_and_then count_in
        (rows_in count_app (map string_bytes arguments.entry.now)) ≡ None) }
{
    let command = count_command(alloc)?;
    let matches = matches_in(command, arguments)?;
    count_of(&matches).ok_or(ArgumentsError::Refused)
}

// `count WORD FILE [--grain N] [--workers N]`
fn count_command<'w>(alloc: Global) -> Result<Command<'w>, AllocError>
    ensures { IfOk result (λ command. app_of command ≡ count_app) }
{
    let command = with_required(alloc, bare_command(alloc, "count"), "word")?;
    let command = with_required(alloc, command, "file")?;
    let command = with_option(alloc, command, "grain")?;
    with_option(alloc, command, "workers")
}

// The count that these matches ask for.
#[tactic(auto, using(crate::proofs::Reading::first_in_rows))]
fn count_of<'w>(matches: &ArgMatches<'w>) -> Option<Count<'w>>
    ensures { option_map (λ c. count c.word.now c.file.now c.grain c.workers) result
        ≡ count_in (rows_of (found_of matches.now)) }
{
    let word = matches.get_str("word")?;
    let file = matches.get_str("file")?;
    let grain = grain_of(matches.get_str("grain"))?;
    let workers = workers_of(matches.get_str("workers"))?;
    Some(Count {
        word,
        file,
        grain,
        workers,
    })
}
