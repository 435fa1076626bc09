// Values that are gathered line by line.
ghost use Rattle.std.specs.Prelude.{◌≤◌, length};

use crate::text::Text;
use outside_io::{Bytes, List, NoMemory};
use std::alloc::Global;

/// The most bytes of a value.
pub const VALUE_LIMIT: u64 = 16_777_216;

/// Why an operation makes no value.
#[derive(Clone, Copy, Debug, PartialEq, Eq)]
pub enum ApplyError {
    /// The value would have so many bytes, which are more than `VALUE_LIMIT`.
    Long(u64),
    /// An allocation failed, or the value would have 2^64 bytes or more.
    NoMemory,
}

impl From<NoMemory> for ApplyError {
    ghost use Rattle.std.specs.Prelude.{◌≡◌};
    ghost use Rattle.text_ops.specs.declared.gathered.ApplyError.TheVariants.{NoMemory as NoMemoryToApply};

    ghost from_gives = { λ _ error. error ≡ NoMemoryToApply };

    fn from(_: NoMemory) -> Self {
        ApplyError::NoMemory
    }
}

// Lines, gathered as long as they are no more bytes than a value may have; beyond that only their number is counted.
// `IsGathered` says which bytes were added.
#[derive(Drop)]
pub(crate) struct Gathered {
    pub(crate) bytes: Bytes,
    pub(crate) total: u64,
    ghost counted: { length bytes ≤ total },
    ghost short: { length bytes ≤ 16777216 },
}

impl Gathered {
    ghost use Rattle.std.specs.Prelude.{◌≡◌, ◌+◌, ◌<◌, ◌≤◌, ◌++◌, ◌∷◌, ℕ, List, [], length, IfOk, OnOk, OnErr};
    ghost use Rattle.text_ops.specs.Lines.{line_end, IsNormal};
    ghost use Rattle.text_ops.specs.Values.{Makes, value_limit};
    ghost use Rattle.text_ops.specs.inside.Gathering.{IsGathered};

    // Nothing. It takes no memory.
    pub(crate) fn new(alloc: Global) -> Gathered
        ensures { IsGathered [] result }
    {
        Gathered {
            bytes: List::new(alloc),
            total: 0,
        }
    }

    // Nothing, with room for so many bytes.
    pub(crate) fn with_room(alloc: Global, room: usize) -> Result<Gathered, NoMemory>
        ensures { IfOk result (IsGathered []) }
    {
        Ok(Gathered {
            bytes: List::with_room(alloc, room)?,
            total: 0,
        })
    }

    // How many bytes there are with so many more, if they can be counted.
    fn total_with(&self, more: u64) -> Result<u64, NoMemory>
        ensures { IfOk result (λ total. total ≡ self.now.total + more) }
    {
        self.total.checked_add(more).ok_or(NoMemory)
    }

    // Adds bytes. After an `Err` nothing was added.
    pub(crate) fn add(&mut self, piece: &[u8]) -> Result<(), NoMemory>
        ensures gathered { (all : List ℕ) → IsGathered all self.old
            → OnOk result (IsGathered (all ++ piece.now) self.new) }
        ensures total { OnOk result (self.new.total ≡ self.old.total + length piece.now) }
        ensures err { OnErr result (self.new.total ≡ self.old.total) }
        ensures lines { IsNormal self.old.bytes → IsNormal piece.now → IsNormal self.new.bytes }
    {
        let total = self.total_with(piece.len() as u64)?;
        if total > VALUE_LIMIT {
            self.total = total;
            return Ok(());
        }
        self.bytes.add_all(piece)?;
        self.total = total;
        Ok(())
    }

    // Counts bytes that are too many to be held. After an `Err` nothing was counted.
    pub(crate) fn count(&mut self, bytes: u64) -> Result<(), NoMemory>
        ensures gathered { (all more : List ℕ) → length more ≡ bytes → value_limit < bytes
            → IsGathered all self.old → OnOk result (IsGathered (all ++ more) self.new) }
        ensures held { self.new.bytes ≡ self.old.bytes }
    {
        self.total = self.total_with(bytes)?;
        Ok(())
    }

    // Adds a line of two parts. After an `Err` a part of it may be added.
    pub(crate) fn add_line(&mut self, front: &[u8], back: &[u8]) -> Result<(), NoMemory>
        ensures gathered { (all : List ℕ) → IsGathered all self.old
            → OnOk result
            (IsGathered (all ++ (front.now ++ (back.now ++ line_end ∷ []))) self.new) }
        ensures total { OnOk result
            (self.new.total ≡ self.old.total + (length front.now + length back.now + 1)) }
    {
        self.total = self.total_with((front.len() + back.len() + 1) as u64)?;
        if self.total <= VALUE_LIMIT {
            self.bytes.add_all(front)?;
            self.bytes.add_all(back)?;
            self.bytes.push(b'\n')?;
        }
        Ok(())
    }

    // The text of what was added, which are whole lines, if it isn't too long.
    pub(crate) fn finish(self, alloc: Global) -> Result<Text, ApplyError>
        requires { self.total ≤ value_limit → IsNormal self.bytes }
        ensures { (all : List ℕ) → IsGathered all self → Makes all result }
    {
        let Gathered { bytes, total } = self;
        if total > VALUE_LIMIT {
            return Err(ApplyError::Long(total));
        }
        Ok(Text::from_lines(alloc, bytes)?)
    }
}
