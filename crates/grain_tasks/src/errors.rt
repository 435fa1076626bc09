// Why a range isn't folded.
ghost use Rattle.std.specs.Prelude.{◌≡◌};

use outside_io::NoMemory;
use std::alloc::{AllocError, AllocFailed};

/// Why a range isn't folded.
#[derive(Clone, Copy, Debug, PartialEq, Eq)]
pub enum GrainError {
    /// A chunk would have no index.
    ZeroGrain,
    /// There would be so many static chunks, more than 65,536.
    TooMany(u64),
    /// An allocation failed.
    NoMemory,
}

impl From<NoMemory> for GrainError {
    ghost use Rattle.grain_tasks.specs.declared.errors.GrainError.TheVariants.{NoMemory as NoMemoryToFold};

    ghost from_gives = { λ _ error. error ≡ NoMemoryToFold };

    fn from(_: NoMemory) -> Self {
        GrainError::NoMemory
    }
}

impl From<AllocError> for GrainError {
    ghost use Rattle.grain_tasks.specs.declared.errors.GrainError.TheVariants.{NoMemory as NoMemoryToFold};

    ghost from_gives = { λ _ error. error ≡ NoMemoryToFold };

    fn from(_: AllocError) -> Self {
        GrainError::NoMemory
    }
}

impl<T: Drop> From<AllocFailed<T>> for GrainError {
    ghost use Rattle.grain_tasks.specs.declared.errors.GrainError.TheVariants.{NoMemory as NoMemoryToFold};

    ghost from_gives = { λ _ error. error ≡ NoMemoryToFold };

    fn from(_: AllocFailed<T>) -> Self {
        GrainError::NoMemory
    }
}
