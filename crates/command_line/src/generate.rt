// The command `generate`.
ghost use Rattle.std.specs.Prelude.{◌≡◌, ◌≤◌, ◌<◌, map, IfOk, IfErr, Some, None, option_map, option_and_then};
ghost use Rattle.std.specs.String.{string_bytes};
ghost use Rattle.clap.specs.Words.{app_of, rows_of, found_of};
ghost use Rattle.command_line.specs.Requests.{generate, generate_app, generate_in, rows_in};
ghost use Rattle.command_line.specs.declared.numbers.TheConstants.{GREATEST_LAYERS, GREATEST_WORKERS};

use super::commands::{bare_command, with_option, with_required};
use super::matches::matches_in;
use super::numbers::{GREATEST_LAYERS, GREATEST_WORKERS, number_in, workers_of};
use super::request::ArgumentsError;
use clap::{ArgMatches, Command};
use std::alloc::{AllocError, Global};

/// Run a generated graph.
#[derive(Clone, Copy)]
pub struct Generate {
    /// How many layers it has, from 1 to 900.
    pub layers: u64,
    /// By how many workers it is run, from 1 to 16.
    pub workers: u32,
    pub ghost within_layers: { (1 ≤ layers) × (layers ≤ GREATEST_LAYERS) },
    pub ghost some_workers: { (0 < workers) × (workers ≤ GREATEST_WORKERS) },
}

/// What the arguments after `generate` ask for.
pub(crate) fn read_generate(alloc: Global, arguments: &[String]) -> Result<Generate, ArgumentsError>
    ensures ok { IfOk result
        (λ g. option_and_then generate_in (rows_in generate_app (map string_bytes arguments.now))
        ≡ Some (generate g.layers g.workers)) }
    ensures err { IfErr result
        (λ error. error ≡ ArgumentsError.Refused
        → option_and_then generate_in
        (rows_in generate_app (map string_bytes arguments.now)) ≡ None) }
{
    let command = generate_command(alloc)?;
    let matches = matches_in(command, arguments)?;
    generate_of(&matches).ok_or(ArgumentsError::Refused)
}

// `generate N [--workers N]`
fn generate_command<'w>(alloc: Global) -> Result<Command<'w>, AllocError>
    ensures { IfOk result (λ command. app_of command ≡ generate_app) }
{
    let command = with_required(alloc, bare_command(alloc, "generate"), "layers")?;
    with_option(alloc, command, "workers")
}

// The generated graph that these matches ask for.
#[tactic(auto, using(crate::proofs::Reading::first_in_rows))]
fn generate_of(matches: &ArgMatches<'_>) -> Option<Generate>
    ensures { option_map (λ g. generate g.layers g.workers) result
        ≡ generate_in (rows_of (found_of matches.now)) }
{
    let layers = number_in(matches.get_str("layers")?, 1, GREATEST_LAYERS)?;
    let workers = workers_of(matches.get_str("workers"))?;
    Some(Generate { layers, workers })
}
