// Writes that are flushed.
ghost use Rattle.std.specs.Prelude.{◌≡◌, [], List, ℕ, IsErrOf};
ghost use Rattle.outside_io.specs.Sink.{SinkState, Writes};
ghost use Rattle.call_status.specs.Delivery.{Delivers};

use outside_io::{Sink, SinkFault};

/// Writes a line to a sink and flushes it.
#[tactic(auto, using(crate::proofs::Deliveries::cut_short, crate::proofs::Deliveries::flush_delivers))]
pub fn deliver<S: Sink>(sink: &mut S, line: &[u8]) -> Result<(), SinkFault>
    requires { (S.state sink.old).held_back ≡ [] }
    ensures delivers { Delivers (S.state sink.old) (S.state sink.new) line.now result }
    ensures no_memory { IsErrOf result SinkFault.NoMemory → S.state sink.new ≡ S.state sink.old }
{
    match sink.put(line) {
        Ok(()) => sink.flush(),
        Err(fault) => Err(fault),
    }
}

/// Flushes a sink after writes with this result in all, and returns the result of writing and flushing. The sink held
/// nothing back before the writes.
#[tactic(auto, using(crate::proofs::Deliveries::cut_short, crate::proofs::Deliveries::flush_delivers, crate::proofs::Deliveries::flush_cuts))]
pub fn flushed<S: Sink>(sink: &mut S, written: Result<(), SinkFault>) -> Result<(), SinkFault>
    ensures { (before : SinkState) (bytes : List ℕ) → before.held_back ≡ []
        → Writes before (S.state sink.old) bytes written
        → Delivers before (S.state sink.new) bytes result }
{
    match written {
        Ok(()) => sink.flush(),
        Err(SinkFault::Failed) => Err(SinkFault::Failed),
        Err(SinkFault::NoMemory) => {
            let _flushed = sink.flush();
            Err(SinkFault::NoMemory)
        }
    }
}
