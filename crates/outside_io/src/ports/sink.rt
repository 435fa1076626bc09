// What bytes are put on, as the layers above see it.
ghost use Rattle.std.specs.Prelude.{◌≡◌, [], OnOk, OnErr, IfErr, IsErrOf};
ghost use Rattle.outside_io.specs.declared.ports.sink.SinkFault.TheVariants.{NoMemory as NoMemoryFault};
ghost use Rattle.outside_io.specs.Sink.{SinkState, Accepts, FailsOn};

use crate::NoMemory;

/// Why a sink didn't take a whole piece, or didn't pass on what it held back.
#[derive(Clone, Copy, Debug, PartialEq, Eq)]
pub enum SinkFault {
    /// The sink failed, and its count of faults has risen. Of what it held back and the piece it has passed on a
    /// prefix, and the rest is lost.
    Failed,
    /// An allocation failed.
    NoMemory,
}

impl From<NoMemory> for SinkFault {
    ghost from_gives = { λ _ fault. fault ≡ NoMemoryFault };

    fn from(_: NoMemory) -> Self {
        SinkFault::NoMemory
    }
}

/// Takes bytes, one piece after another.
///
/// A sink may hold back bytes that it has accepted, to pass many of them on at once. Whoever needs them passed on
/// calls `flush`.
pub trait Sink {
    /// The bytes passed on so far, those held back, and how often the sink has failed.
    ghost state: { Self → SinkState };

    /// Accepts the whole piece, or answers an error; an `Ok` that left bytes out doesn't come. After `NoMemory`
    /// all is as before.
    fn put(&mut self, piece: &[u8]) -> Result<(), SinkFault>
        ensures ok { OnOk result (Accepts (state self.old) (state self.new) piece.now) }
        ensures failed { IsErrOf result SinkFault.Failed
            → FailsOn (state self.old) (state self.new) piece.now }
        ensures no_memory { IsErrOf result SinkFault.NoMemory → state self.new ≡ state self.old };

    /// Passes on what is held back. Nothing is held back afterwards: what a failure kept from being passed on is
    /// lost. It takes no memory, so it never answers `NoMemory`.
    fn flush(&mut self) -> Result<(), SinkFault>
        ensures ok { OnOk result (Accepts (state self.old) (state self.new) []) }
        ensures err { OnErr result (FailsOn (state self.old) (state self.new) []) }
        ensures failed { IfErr result (λ fault. fault ≡ SinkFault.Failed) }
        ensures nothing_held { (state self.new).held_back ≡ [] };
}
