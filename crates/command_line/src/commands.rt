// What the commands of `flow` are made of.
ghost use Rattle.std.specs.Prelude.{◌≡◌, IfOk};
ghost use Rattle.clap.specs.Words.{app_of, with_rule};
ghost use Rattle.command_line.specs.Requests.{command_named, required, option, flag};

use clap::{Arg, ArgAction, Command};
use std::alloc::{AllocError, Global};

/// A command of this name that reads no name of a program, and of itself has no flag.
pub(crate) fn bare_command<'w>(alloc: Global, name: &'w str) -> Command<'w>
    ensures { app_of result ≡ command_named name.entry.now }
{
    Command::new(alloc, name)
        .no_binary_name(true)
        .disable_help_flag(true)
}

/// The command with one more argument, which has to be there, by its place.
pub(crate) fn with_required<'w>(
    alloc: Global,
    command: Command<'w>,
    name: &'w str,
) -> Result<Command<'w>, AllocError>
    ensures { IfOk result
        (λ more. app_of more ≡ with_rule (app_of command.entry) (required name.entry.now)) }
{
    command.arg(Arg::new(alloc, name).required(true))
}

/// The command with one more option, which has a value.
pub(crate) fn with_option<'w>(
    alloc: Global,
    command: Command<'w>,
    name: &'w str,
) -> Result<Command<'w>, AllocError>
    ensures { IfOk result
        (λ more. app_of more ≡ with_rule (app_of command.entry) (option name.entry.now)) }
{
    command.arg(Arg::new(alloc, name).long(name))
}

/// The command with one more option, which has no value.
pub(crate) fn with_flag<'w>(
    alloc: Global,
    command: Command<'w>,
    name: &'w str,
) -> Result<Command<'w>, AllocError>
    ensures { IfOk result
        (λ more. app_of more ≡ with_rule (app_of command.entry) (flag name.entry.now)) }
{
    command.arg(Arg::new(alloc, name).long(name).action(ArgAction::SetTrue))
}
