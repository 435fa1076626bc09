// Requests.
ghost use Rattle.std.specs.Prelude.{◌≡◌, map, IfOk, IfErr, Some, None};
ghost use Rattle.std.specs.String.{string_bytes};
ghost use Rattle.command_line.specs.Requests.{asked_by};
ghost use Rattle.command_line.specs.Asked.{asked};

use super::check::{Check, read_check};
use super::count::{Count, read_count};
use super::generate::{Generate, read_generate};
use super::judge::{Judge, read_judge};
use super::profile::{Profile, read_profile};
use super::run::{Run, read_run};
use super::upgrade::{Upgrade, read_upgrade};
use std::alloc::{AllocError, Global};

/// Why arguments give no request.
#[derive(Clone, Copy)]
pub enum ArgumentsError {
    /// They ask for nothing that there is.
    Refused,
    /// An allocation failed.
    NoMemory,
}

impl From<AllocError> for ArgumentsError {
    ghost use Rattle.std.specs.Prelude.{◌≡◌};
    ghost use Rattle.command_line.specs.declared.request.ArgumentsError.TheVariants.{NoMemory as NoMemoryError};

    ghost from_gives = { λ _ error. error ≡ NoMemoryError };

    fn from(_: AllocError) -> Self {
        ArgumentsError::NoMemory
    }
}

/// What arguments ask for.
#[derive(Clone, Copy)]
pub enum Request<'w> {
    Run(Run<'w>),
    Profile(Profile<'w>),
    Judge(Judge<'w>),
    Check(Check<'w>),
    Upgrade(Upgrade<'w>),
    Generate(Generate),
    Count(Count<'w>),
}

/// What the arguments after the program's own name ask for. `Refused` comes exactly where they ask for nothing
/// (`asked_by`), unless an allocation fails.
#[tactic(auto, using(crate::proofs::Reading::other_text))]
pub fn read_arguments<'w>(
    alloc: Global,
    arguments: &'w [String],
) -> Result<Request<'w>, ArgumentsError>
    ensures ok { IfOk result
        (λ request. asked_by (map string_bytes arguments.entry.now) ≡ Some (asked request)) }
    ensures refused { IfErr result
        (λ error. error ≡ ArgumentsError.Refused
        → asked_by (map string_bytes arguments.entry.now) ≡ None) }
{
    let Some((command, rest)) = arguments.split_first() else {
        return Err(ArgumentsError::Refused);
    };
    match command.as_str() {
        "run" => Ok(Request::Run(read_run(alloc, rest)?)),
        "profile" => Ok(Request::Profile(read_profile(alloc, rest)?)),
        "judge" => Ok(Request::Judge(read_judge(alloc, rest)?)),
        "check" => Ok(Request::Check(read_check(alloc, rest)?)),
        "upgrade" => Ok(Request::Upgrade(read_upgrade(alloc, rest)?)),
        "generate" => Ok(Request::Generate(read_generate(alloc, rest)?)),
        "count" => Ok(Request::Count(read_count(alloc, rest)?)),
        _ => Err(ArgumentsError::Refused),
    }
}
