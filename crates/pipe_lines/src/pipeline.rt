// What a pipeline is, and why a specification is none.
ghost use Rattle.std.specs.Prelude.{◌≡◌};
ghost use Rattle.pipe_lines.specs.Pipelines.{spec_fault};
ghost use Rattle.pipe_lines.specs.declared.pipeline.PipeError.TheVariants.{NoMemory as OutOfMemory};

use outside_io::{List, NoMemory};

/// How many lines a pipeline may have.
pub const MAX_LINES: u32 = 64;

/// How many pipes a pipeline may have.
pub const MAX_PIPES: usize = 32;

/// A pipeline: how many lines it has, and of each pipe whether it is serial.
#[derive(Drop)]
pub struct PipeSpec {
    pub lines: u32,
    pub serial: List<bool>,
}

/// Why a pipeline was refused. Where several reasons hold, the first in this order is returned; `NoMemory` is returned
/// only where none of the others holds.
#[derive(Clone, Copy, Debug, PartialEq, Eq)]
pub enum PipeError {
    /// It has no line.
    NoLines,
    /// It has no pipe.
    NoPipes,
    /// The first pipe is parallel.
    FirstParallel,
    /// It has more than `MAX_LINES` lines.
    TooManyLines,
    /// It has more than `MAX_PIPES` pipes.
    TooManyPipes,
    /// An allocation failed.
    NoMemory,
}

impl From<NoMemory> for PipeError {
    ghost from_gives = { λ _ error. error ≡ OutOfMemory };

    fn from(_: NoMemory) -> Self {
        PipeError::NoMemory
    }
}

/// Why this is no pipeline, if it is none: the first reason in the order of `PipeError`, which is never `NoMemory`.
pub fn spec_fault(spec: &PipeSpec) -> Option<PipeError>
    ensures { result ≡ spec_fault spec.now }
{
    let serial = spec.serial.as_slice();
    if spec.lines == 0 {
        return Some(PipeError::NoLines);
    }
    if serial.is_empty() {
        return Some(PipeError::NoPipes);
    }
    if !serial[0] {
        return Some(PipeError::FirstParallel);
    }
    if spec.lines > MAX_LINES {
        return Some(PipeError::TooManyLines);
    }
    if serial.len() > MAX_PIPES {
        return Some(PipeError::TooManyPipes);
    }
    None
}
