// Values that are put together of others.
ghost use Rattle.text_ops.specs.Lines.{IsNormal};

use crate::gathered::{ApplyError, Gathered};
use crate::text::Text;
use outside_io::NoMemory;
use std::alloc::Global;

/// A value that is put together of others, one behind the other. Where it is too long only its length is counted.
/// `IsJoined` says which bytes it has.
#[derive(Drop)]
pub struct Joined {
    pub(crate) made: Gathered,
    ghost lines: { IsNormal made.bytes },
}

impl Joined {
    ghost use Rattle.std.specs.Prelude.{◌≡◌, ◌++◌, ℕ, List, [], OnOk};
    ghost use Rattle.text_ops.specs.Joining.{IsJoined};
    ghost use Rattle.text_ops.specs.Values.{Makes};

    /// The empty value.
    pub fn new(alloc: Global) -> Joined
        ensures { IsJoined [] result }
    {
        Joined {
            made: Gathered::new(alloc),
        }
    }

    /// Puts a value behind those that are there. Of one that is too long, and so isn't made, it counts the bytes.
    pub fn add(&mut self, value: Result<Text, ApplyError>) -> Result<(), NoMemory>
        ensures { (more all : List ℕ) → Makes more value → IsJoined all self.old
            → OnOk result (IsJoined (all ++ more) self.new) }
    {
        match value {
            Ok(text) => self.made.add(text.as_slice()),
            Err(ApplyError::Long(bytes)) => self.made.count(bytes),
            Err(ApplyError::NoMemory) => Err(NoMemory),
        }
    }

    /// The value, if it isn't too long.
    pub fn finish(self, alloc: Global) -> Result<Text, ApplyError>
        ensures { (all : List ℕ) → IsJoined all self → Makes all result }
    {
        self.made.finish(alloc)
    }
}
