// Parts of lines, and pieces that a sink takes.
ghost use Rattle.std.specs.Prelude.{◌≡◌, ◌++◌, decimal, OnOk};
ghost use Rattle.outside_io.specs.Sink.{Writes};

use crate::{Bytes, NoMemory, Sink, SinkFault};
use itoa::Buffer;

/// Adds a word and, in decimal, a number.
pub fn add_numbered(line: &mut Bytes, word: &[u8], number: u64) -> Result<(), NoMemory>
    ensures { OnOk result (line.new ≡ line.old ++ word.now ++ decimal number) }
{
    let mut digits = Buffer::new();
    line.add_all(word)?;
    line.add_all(digits.format(number).as_bytes())
}

/// Writes a piece: the whole of it; or, after `Failed`, a prefix; or nothing, where an allocation failed.
pub fn put_piece<S: Sink>(out: &mut S, piece: &[u8]) -> Result<(), SinkFault>
    ensures { Writes (S.state out.old) (S.state out.new) piece.now result }
{
    out.put(piece)
}
