// A sink in memory, of which given calls fail.
ghost use Rattle.std.specs.Prelude.{◌≡◌, ◌==◌, [], find, IsOk, option_copied, take};
ghost use Rattle.outside_io.specs.Sink.{Writes};

use crate::{Bytes, List, Sink, SinkFault};
use std::alloc::Global;
use std::marker::Model;

/// A put on a sink in memory that is to fail.
#[derive(Clone, Copy, Debug, PartialEq, Eq)]
pub struct FailAt {
    /// The number of the put, from 0.
    pub call: u64,
    /// How many bytes it takes of its piece before it fails: all of a piece that is no longer than this.
    pub taken: u64,
}

/// A sink in memory, which holds nothing back. Its puts are numbered from 0, and exactly those fail that it was
/// told: where the allocation for what such a put takes fails, it takes nothing and fails all the same. A put that
/// answers `NoMemory` isn't numbered. Numbers end below the greatest `u64`: a put that would have that number
/// answers `NoMemory`.
#[derive(Drop)]
pub struct MemorySink {
    bytes: Bytes,
    failing: List<FailAt>,
    calls: u64,
    faults: u64,
}

impl Model for MemorySink {
    ghost use Rattle.std.specs.Prelude.{◌≤◌};
    ghost use Rattle.outside_io.specs.MemorySink.{TakenBytes};

    ghost Value = { TakenBytes };

    ghost view = { λ m. record {
      bytes = m.bytes;
      failing = m.failing;
      calls = m.calls;
      faults = m.faults;
    } };

    ghost invariant = { λ m. m.faults ≤ m.calls };
}

impl MemorySink {
    /// An empty sink. The calls that `failing` names fail; where several rows name a call, the first counts.
    pub fn new(alloc: Global, failing: List<FailAt>) -> MemorySink
        ensures { result ≡ record { bytes = []; failing = failing; calls = 0; faults = 0 } }
    {
        MemorySink {
            bytes: List::new(alloc),
            failing,
            calls: 0,
            faults: 0,
        }
    }

    /// All bytes taken so far.
    pub fn bytes(&self) -> &[u8]
        ensures { result.now ≡ self.now.bytes }
    {
        self.bytes.as_slice()
    }
}

impl Sink for MemorySink {
    ghost use Rattle.outside_io.specs.MemorySink.{Puts, as_sink};

    ghost state = { as_sink };

    fn put(&mut self, piece: &[u8]) -> Result<(), SinkFault>
        ensures writes { Writes (as_sink self.old) (as_sink self.new) piece.now result }
        ensures puts { Puts self.old self.new piece.now result }
    {
        if self.calls == u64::MAX {
            return Err(SinkFault::NoMemory);
        }
        match row_of(self.failing.as_slice(), self.calls) {
            Some(row) => {
                let _taken = self.bytes.add_all(front_of(piece, row.taken));
                self.faults += 1;
                self.calls += 1;
                Err(SinkFault::Failed)
            }
            None => match self.bytes.add_all(piece) {
                Ok(()) => {
                    self.calls += 1;
                    Ok(())
                }
                Err(_) => Err(SinkFault::NoMemory),
            },
        }
    }

    /// Does nothing.
    fn flush(&mut self) -> Result<(), SinkFault>
        ensures ok { IsOk result }
        ensures same { self.new ≡ self.old }
    {
        Ok(())
    }
}

// The first row that names this call.
fn row_of(rows: &[FailAt], call: u64) -> Option<&FailAt>
    ensures { option_copied result ≡ find (λ row. row.call == call) rows.now }
{
    rows.iter().find(|row| row.call == call)
}

// At most `count` bytes, from the front of the piece.
fn front_of(piece: &[u8], count: u64) -> &[u8]
    ensures { result.now ≡ take count piece.now }
{
    match usize::try_from(count) {
        Ok(count) if count < piece.len() => &piece[..count],
        _ => piece,
    }
}
