// The slots in which a row is noted by the hash of a key or of a line.
ghost use Rattle.std.specs.Prelude.{◌≡◌, ◌<◌, ◌^◌};
ghost use Rattle.text_ops.specs.inside.Slots.{first_slot, hash_of};

use std::hash::{FoldHasher, Hasher};

/// So many slots are looked at for a key or a line, from its first one on. The last slots of a table, as many as these,
/// are nobody's first, so that none runs out of slots at the end.
pub(crate) const PROBES: usize = 16;

/// What slots say of a key or a line.
#[derive(Clone, Copy)]
pub(crate) enum Probed {
    /// The row that they name for it.
    Row(usize),
    /// None. This slot is free for one.
    Free(usize),
    /// None, and no slot is free.
    Crowded,
}

/// The first slot that is looked at for these bytes, of so many slots.
pub(crate) fn first_slot(bytes: &[u8], slots: usize) -> usize
    ensures value { result ≡ first_slot bytes.now slots }
    ensures bound { result < 2 ^ 32 }
{
    let firsts = slots.saturating_sub(PROBES) as u64;
    ((hash_of(bytes) >> 32).wrapping_mul(firsts) >> 32) as usize
}

fn hash_of(bytes: &[u8]) -> u64
    ensures { result ≡ hash_of bytes.now }
{
    let mut hasher = FoldHasher::default();
    hasher.write(bytes);
    hasher.finish()
}
