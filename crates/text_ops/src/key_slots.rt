// Which line is the first one with a key, by the hashes of keys.
ghost use Rattle.std.specs.Prelude.{◌≡◌, ◌+◌, ◌<◌, ◌^◌, length, IfOk, IfSome, IsTrue};
ghost use Rattle.text_ops.specs.inside.KeySlots.{AreFilled, look_up};

use crate::slots::{PROBES, Probed, first_slot};
use crate::sort_key::{KeyForm, SortKey};
use crate::sort_keys::keyed_piece;
use outside_io::NoMemory;
use std::alloc::Global;

// So many slots there are for each line: with fewer, 16 that follow one another would often be taken.
const SLOTS: usize = 8;

// For more sort keys slots would take more memory than a search in order is worth: at most 128 MB.
const MOST_ROWS: usize = 1 << 22;

/// Slots that lead from the hash of each key to the first of the sort keys that stand for it. A free slot names no sort
/// key. `None`: too many keys have hashes that lead to the same slots, or there are too many sort keys.
pub(crate) fn filled_slots<K: KeyForm>(
    alloc: Global,
    text: &[u8],
    rows: &[SortKey<K>],
) -> Result<Option<Vec<u32>>, NoMemory>
    ensures { IfOk result (λ found. IfSome found (λ slots.
        AreFilled text.now rows.now slots.items (length rows.now))) }
{
    let count = rows.len();
    if count > MOST_ROWS {
        return Ok(None);
    }
    let mut slots = vec![in alloc; u32::MAX; SLOTS * count + PROBES]?;
    for row in 0..count {
        if !fill(text, rows, &mut slots, row) {
            return Ok(None);
        }
    }
    Ok(Some(slots))
}

/// Looks for a key by its hash.
pub(crate) fn look_up<K: KeyForm>(
    text: &[u8],
    rows: &[SortKey<K>],
    slots: &[u32],
    key: &[u8],
) -> Probed
    ensures { result ≡ look_up text.now rows.now slots.now key.now }
{
    let first = first_slot(key, slots.len());
    for probe in 0..PROBES {
        let at = first + probe;
        let Some(slot) = slots.get(at) else {
            return Probed::Crowded;
        };
        let row = *slot as usize;
        let Some(sort_key) = rows.get(row) else {
            return Probed::Free(at);
        };
        if keyed_piece(text, sort_key) == key {
            return Probed::Row(row);
        }
    }
    Probed::Crowded
}

// Fills a slot with a sort key, unless one before it stands for the same key. `false`: there is no free slot for it.
fn fill<K: KeyForm>(text: &[u8], rows: &[SortKey<K>], slots: &mut [u32], row: usize) -> bool
    requires within { row < length rows.now }
    requires short { row < 2 ^ 32 }
    ensures filled { IsTrue result → AreFilled text.now rows.now slots.old row
        → AreFilled text.now rows.now slots.new (row + 1) }
{
    let key = keyed_piece(text, &rows[row]);
    match look_up(text, rows, slots, key) {
        // It always is: slots name only sort keys before this one. The comparison says so to the proof.
        Probed::Row(first) => first <= row,
        Probed::Free(at) => {
            slots[at] = row as u32;
            true
        }
        Probed::Crowded => false,
    }
}
