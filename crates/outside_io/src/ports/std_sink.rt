// The standard streams as sinks. No contract says what a stream shows.
ghost use Rattle.std.specs.Prelude.{◌≡◌, ◌<◌, ◌+◌, ◌-◌, ◌^◌, ◌++◌, [], IfErr, IsTrue, MatchBool, None, OnErr, OnOk};
ghost use Rattle.std.specs.Io.KnownBytes.{Appends};
ghost use Rattle.outside_io.specs.StdSink.{PutsOn, WritesOn, WroteFront};

use crate::{Sink, SinkFault};
use std::alloc::Global;
use std::io::{ErrorKind, Stderr, Stdout, Write};
use std::marker::Model;

/// A runtime that has the standard streams to write on.
pub trait StandardStreams {
    /// Standard output.
    fn output(&self) -> Stdout;

    /// Standard error.
    fn error(&self) -> Stderr;
}

impl StandardStreams for HostRuntime {
    fn output(&self) -> Stdout {
        self.stdout()
    }

    fn error(&self) -> Stderr {
        self.stderr()
    }
}

/// How many bytes are held back at most.
const HELD_LIMIT: usize = 65_536;

/// A stream to write on as a sink.
///
/// It holds back up to 65,536 bytes and writes them at once; a longer piece is written from where it is, behind
/// what was held back. Where no allocation can be had to hold a piece back, the piece is written. `flush` writes
/// what is held back: a `StdSink` that is dropped without it loses those bytes.
///
/// A write that fails, as at a closed pipe, and one that takes nothing are faults; one that a signal cut short goes
/// on. The count of faults ends at the greatest `u64`: there each put answers `NoMemory` and does nothing.
#[derive(Drop)]
pub struct StdSink<W> {
    stream: W,
    held: Vec<u8>,
    faults: u64,
}

impl<W> Model for StdSink<W> {
    ghost use Rattle.outside_io.specs.StdSink.{OpenStream};

    ghost Value = { OpenStream W };

    ghost use Rattle.std.specs.Prelude.{◌≡◌, ◌≤◌, ◌-◌, ◌^◌, [], length};
    ghost use Rattle.outside_io.specs.StdSink.{held_limit};

    ghost view = { λ sink.
        record { stream = sink.stream; held = sink.held.items; faults = sink.faults } };

    ghost invariant = { λ sink. (length sink.held.items ≤ held_limit)
        × (sink.faults ≡ 2 ^ 64 - 1 → sink.held.items ≡ []) };
}

impl StdSink<Stdout> {
    /// Standard output. Nothing is held back, and there was no fault yet.
    pub fn out(alloc: Global, rt: &impl StandardStreams) -> StdSink<Stdout>
        ensures held { result.held ≡ [] }
        ensures faults { result.faults ≡ 0 }
    {
        StdSink::on(alloc, rt.output())
    }
}

impl StdSink<Stderr> {
    /// Standard error. Nothing is held back, and there was no fault yet.
    pub fn notes(alloc: Global, rt: &impl StandardStreams) -> StdSink<Stderr>
        ensures held { result.held ≡ [] }
        ensures faults { result.faults ≡ 0 }
    {
        StdSink::on(alloc, rt.error())
    }
}

impl<W> StdSink<W> {
    // A stream of which nothing is held back yet. It takes no memory.
    fn on(alloc: Global, stream: W) -> StdSink<W>
        ensures { result ≡ record { stream = stream; held = []; faults = 0 } }
    {
        StdSink {
            stream,
            held: Vec::new(alloc),
            faults: 0,
        }
    }

    // Holds a piece back, where there are room and memory for it, and says whether it did.
    fn hold(&mut self, piece: &[u8]) -> bool
        requires { self.old.faults < 2 ^ 64 - 1 }
        ensures { MatchBool result
            (self.new ≡ record self.old { held = self.old.held ++ piece.now })
            (self.new ≡ self.old) }
    {
        piece.len() <= HELD_LIMIT - self.held.len() && self.held.extend_from_slice(piece).is_ok()
    }

    // The answer after a write of all there was. A failure is counted.
    fn answer(&mut self, is_written: bool) -> Result<(), SinkFault>
        requires room { self.old.faults < 2 ^ 64 - 1 }
        requires nothing_held { self.old.held ≡ [] }
        ensures ok { OnOk result (IsTrue is_written × (self.new ≡ self.old)) }
        ensures err { OnErr result
            (¬ IsTrue is_written × (self.new ≡ record self.old { faults = self.old.faults + 1 })) }
        ensures failed { IfErr result (λ fault. fault ≡ SinkFault.Failed) }
    {
        if is_written {
            return Ok(());
        }
        self.faults += 1;
        Err(SinkFault::Failed)
    }
}

impl<W: Write> StdSink<W> {
    // Writes a piece before which nothing is held back.
    fn write(&mut self, piece: &[u8]) -> Result<(), SinkFault>
        requires room { self.old.faults < 2 ^ 64 - 1 }
        requires nothing_held { self.old.held ≡ [] }
        ensures { WritesOn W.contents self.old self.new piece.now result }
    {
        let is_written = write_whole(&mut self.stream, piece);
        self.answer(is_written)
    }

    // Writes what is held back. Nothing is held back afterwards.
    fn write_held(&mut self) -> Result<(), SinkFault>
        requires { self.old.faults < 2 ^ 64 - 1 }
        ensures writes { WritesOn W.contents self.old self.new self.old.held result }
        ensures failed { IfErr result (λ fault. fault ≡ SinkFault.Failed) }
    {
        let is_written = write_whole(&mut self.stream, self.held.as_slice());
        self.held.clear();
        self.answer(is_written)
    }
}

impl<W: Write> Sink for StdSink<W> {
    ghost state = { λ sink. record { taken = None; held_back = sink.held; faults = sink.faults } };

    fn put(&mut self, piece: &[u8]) -> Result<(), SinkFault>
        ensures { PutsOn W.contents self.old self.new piece.now result }
    {
        if self.faults == u64::MAX {
            return Err(SinkFault::NoMemory);
        }
        if self.hold(piece) {
            return Ok(());
        }
        if let Err(fault) = self.write_held() {
            return Err(fault);
        }
        if self.hold(piece) {
            return Ok(());
        }
        self.write(piece)
    }

    fn flush(&mut self) -> Result<(), SinkFault>
        ensures writes { WritesOn W.contents self.old self.new self.old.held result }
        ensures failed { IfErr result (λ fault. fault ≡ SinkFault.Failed) }
    {
        if self.held.is_empty() {
            return Ok(());
        }
        self.write_held()
    }
}

// Writes these bytes, in as many writes as the stream asks for, and says whether it took them all. After a failure
// it has taken a prefix of them.
fn write_whole<W: Write>(stream: &mut W, bytes: &[u8]) -> bool
    ensures { MatchBool result
        (Appends (W.contents stream.old) (W.contents stream.new) bytes.now)
        (WroteFront (W.contents stream.old) (W.contents stream.new) bytes.now) }
{
    let mut rest = bytes;
    for _write in 0..u64::MAX {
        if rest.is_empty() {
            return true;
        }
        match stream.write(rest) {
            Ok(0) => return false,
            Ok(count) => rest = &rest[count..],
            Err(error) if error.kind() == ErrorKind::Interrupted => (),
            Err(_) => return false,
        }
    }
    false
}

#[cfg(test)]
mod tests {
    use super::*;
    use std::io;
    use std::io::ErrorKind;
    use std::test::Fail;

    // A stream that takes two bytes a write, is interrupted by signals, and is full at some length.
    #[derive(Drop)]
    struct Slow {
        written: usize,
        room: usize,
        is_interrupted: bool,
    }

    impl Write for Slow {
        fn write(&mut self, buf: &[u8]) -> io::Result<usize> {
            self.is_interrupted = !self.is_interrupted;
            if self.is_interrupted {
                return Err(io::Error::from(ErrorKind::Interrupted));
            }
            let taken = buf.len().min(2).min(self.room);
            self.room -= taken;
            self.written = self.written.saturating_add(taken);
            Ok(taken)
        }

        fn flush(&mut self) -> io::Result<()> {
            Ok(())
        }
    }

    fn slow_sink(alloc: Global, room: usize) -> StdSink<Slow> {
        let stream = Slow {
            written: 0,
            room,
            is_interrupted: false,
        };
        StdSink::on(alloc, stream)
    }

    #[test]
    fn goes_on_after_signals_and_fails_where_nothing_is_taken(rt: HostRuntime) {
        let mut sink = slow_sink(rt.alloc(), 7);
        assert!(rt; sink.put(b"abc") == Ok(()));
        assert!(rt; sink.put(b"de") == Ok(()));
        assert!(rt; sink.stream.written == 0);
        assert!(rt; sink.flush() == Ok(()));
        assert!(rt; sink.stream.written == 5);
        assert!(rt; sink.put(b"fgh") == Ok(()));
        assert!(rt; sink.flush() == Err(SinkFault::Failed));
        assert!(rt; sink.stream.written == 7);
        assert!(rt; sink.faults == 1);
        assert!(rt; sink.flush() == Ok(()));
    }

    // What is held back is written first, and then the piece, which isn't copied.
    #[test]
    fn writes_a_piece_of_a_megabyte(rt: HostRuntime) -> Result<(), Fail> {
        let mut piece = Vec::with_capacity(rt.alloc(), 1 << 20)?;
        piece.resize(1 << 20, b'x')?;
        let mut sink = slow_sink(rt.alloc(), usize::MAX);
        sink.put(b"ab")?;
        sink.put(piece.as_slice())?;
        assert!(rt; sink.stream.written == 2 + (1 << 20));
        assert!(rt; sink.held.is_empty());
        Ok(())
    }
}
