// Named texts that can be read, as the layers above see them.
ghost use Rattle.std.specs.Prelude.{◌≡◌, ℕ, List, IfSome, IfOk, Err};
ghost use Rattle.outside_io.specs.declared.ports.texts.TextsFault.TheVariants.{NoMemory as NoMemoryFault};
ghost use Rattle.outside_io.specs.Texts.{Finds, IsWithin, SourceTexts, failed_after};

use crate::{Bytes, List, NoMemory};
use std::alloc::Global;

/// What a read found under a name.
#[derive(Drop)]
pub enum Found {
    /// The whole text.
    Text(Bytes),
    /// No text has this name.
    Missing,
    /// The text has more bytes than were asked for.
    Longer,
}

/// Why a read gave no answer.
#[derive(Clone, Copy, Debug, PartialEq, Eq)]
pub enum TextsFault {
    /// The source failed: the name is the last of those whose reads have failed.
    Failed,
    /// An allocation failed. What is held stays, and so do the names whose reads have failed.
    NoMemory,
}

impl From<NoMemory> for TextsFault {
    ghost from_gives = { λ _ fault. fault ≡ NoMemoryFault };

    fn from(_: NoMemory) -> Self {
        TextsFault::NoMemory
    }
}

/// A source of texts that have names.
pub trait Texts {
    /// The text under each name, as far as there is one; `None` where the source doesn't specify what it holds.
    ghost held: { Self → SourceTexts };

    /// The names whose reads have failed, one for each such read, in order.
    ghost failed: { Self → List (List ℕ) };

    /// Reads the text under `name`, of at most `max` bytes. What the source holds stays.
    fn read(&mut self, alloc: Global, name: &[u8], max: u64) -> Result<Found, TextsFault>
        ensures found { IfSome (held self.old) (λ held. IfOk result (Finds (held name.now) max)) }
        ensures within { IfOk result (IsWithin max) }
        ensures stays { held self.new ≡ held self.old }
        // The name of a read that fails is added, and no other.
        ensures failed { failed self.new ≡ failed_after (failed self.old) name.now result };
}

/// The answer of a read that failed, whose name is added to those of failed reads: `NoMemory` where there is no room
/// for it.
pub(crate) fn failed_read(alloc: Global, failed: &mut List<Bytes>, name: &[u8]) -> TextsFault
    ensures { failed.new ≡ failed_after failed.old name.now (Err result) }
{
    let Ok(name) = List::from_slice(alloc, name) else {
        return TextsFault::NoMemory;
    };
    match failed.push(name) {
        Ok(()) => TextsFault::Failed,
        Err(_) => TextsFault::NoMemory,
    }
}
