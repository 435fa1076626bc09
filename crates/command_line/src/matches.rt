// What `clap` finds among the arguments of a command.
ghost use Rattle.std.specs.Prelude.{◌≡◌, ◌≢◌, map, true, IfOk, IfErr, Some, None};
ghost use Rattle.std.specs.String.{string_bytes};
ghost use Rattle.clap.specs.Words.{app_of, is_simple, is_simple_and_free, rows_of, found_of, kind_of};
ghost use Rattle.command_line.specs.Requests.{rows_in};

use super::request::ArgumentsError;
use clap::error::ErrorKind;
use clap::{ArgMatches, Command, Error};

/// What a command finds among the arguments behind its name.
pub(crate) fn matches_in<'w>(
    command: Command<'w>,
    arguments: &'w [String],
) -> Result<ArgMatches<'w>, ArgumentsError>
    requires simple { is_simple (app_of command) ≡ true }
    requires free { is_simple_and_free (app_of command) ≡ true }
    ensures ok { IfOk result
        (λ matches. rows_in (app_of command.entry) (map string_bytes arguments.entry.now)
        ≡ Some (rows_of (found_of matches))) }
    ensures err { IfErr result
        (λ error. error ≡ ArgumentsError.Refused
        → rows_in (app_of command.entry) (map string_bytes arguments.entry.now) ≡ None) }
{
    match command.try_get_matches_from(arguments) {
        Ok(matches) => Ok(matches),
        Err(error) => Err(arguments_error(&error)),
    }
}

// Why `clap` gave no matches.
fn arguments_error(error: &Error) -> ArgumentsError
    ensures memory { kind_of error.now ≡ ErrorKind.OutOfMemory → result ≡ ArgumentsError.NoMemory }
    ensures refused { kind_of error.now ≢ ErrorKind.OutOfMemory → result ≡ ArgumentsError.Refused }
{
    match error.kind() {
        ErrorKind::OutOfMemory => ArgumentsError::NoMemory,
        _ => ArgumentsError::Refused,
    }
}
