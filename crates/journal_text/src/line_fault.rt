// Why a line wasn't read.
ghost use Rattle.std.specs.Prelude.{◌≡◌};
ghost use Rattle.journal_text.specs.declared.line_fault.LineFault.TheVariants.{NoMemory as NoRoom};

use outside_io::{Back, NoMemory};

/// Why the front of the bytes wasn't read.
#[derive(Clone, Copy)]
pub(crate) enum LineFault {
    /// Something else is there.
    Bad,
    /// An allocation failed.
    NoMemory,
}

impl From<NoMemory> for LineFault {
    ghost from_gives = { λ _ fault. fault ≡ NoRoom };

    fn from(_: NoMemory) -> Self {
        LineFault::NoMemory
    }
}

impl<T: Drop> From<Back<T>> for LineFault {
    ghost from_gives = { λ _ fault. fault ≡ NoRoom };

    fn from(_: Back<T>) -> Self {
        LineFault::NoMemory
    }
}
