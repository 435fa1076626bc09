// The lines in order.
ghost use Rattle.std.specs.Prelude.{◌≡◌, ◌++◌, ℕ, List, OnOk};
ghost use Rattle.text_ops.specs.Lines.{IsNormal, ended};
ghost use Rattle.text_ops.specs.TextMeaning.{sort_meaning};
ghost use Rattle.text_ops.specs.Values.{Makes};
ghost use Rattle.text_ops.specs.inside.Gathering.{IsGathered};
ghost use Rattle.text_ops.specs.inside.SortKeys.{keyed_piece, IsEndedKey, KeysFit};

use crate::gathered::{ApplyError, Gathered, VALUE_LIMIT};
use crate::short_keys::short_keys_fit;
use crate::sort_key::{KeyForm, LEAD_BYTES, LongKey, Piece, ShortKey, SortKey};
use crate::sort_keys::{keyed_with_end, sorted_keys};
use crate::text::Text;
use outside_io::NoMemory;
use std::alloc::Global;

// The memory of so many sort keys is given back at a time.
const KEYS_AT_ONCE: usize = 65_536;

/// The lines in the order of their bytes.
pub fn sort(alloc: Global, text: &Text) -> Result<Text, ApplyError>
    ensures { Makes (sort_meaning text.now) result }
{
    let bytes = text.as_slice();
    let len = bytes.len() as u64;
    if len > VALUE_LIMIT {
        return Err(ApplyError::Long(len));
    }
    if short_keys_fit(bytes) {
        return sort_by_keys::<ShortKey>(alloc, bytes);
    }
    sort_by_keys::<LongKey>(alloc, bytes)
}

fn sort_by_keys<K: KeyForm>(alloc: Global, text: &[u8]) -> Result<Text, ApplyError>
    requires normal { IsNormal text.now }
    requires fit { KeysFit K.most_start K.most_len text.now }
    ensures { Makes (sort_meaning text.now) result }
{
    let mut sort_keys = sorted_keys::<K>(alloc, text, Piece::Whole)?;
    // So that the first is taken off the end.
    sort_keys.reverse();
    let mut made = Gathered::with_room(alloc, text.len())?;
    while let Some(sort_key) = sort_keys.pop() {
        add_keyed_line(&mut made, text, &sort_key)?;
        give_back_memory(&mut sort_keys);
    }
    made.finish(alloc)
}

// Now and then gives back the memory of sort keys that were taken off the end. So a text and its sort keys are not all
// in memory beside all that is made of them: memory of a text with room for it isn't used before bytes are put there.
fn give_back_memory<K: KeyForm>(sort_keys: &mut Vec<SortKey<K>>)
    ensures { sort_keys.new.items ≡ sort_keys.old.items }
{
    if sort_keys.len() % KEYS_AT_ONCE == 0 {
        sort_keys.shrink_to_fit();
    }
}

// Adds the line of a sort key, with its end. The bytes of a line of at most six are those of its lead, so that it isn't
// read from the text again, in which lines that are neighbours in order lie far apart.
fn add_keyed_line<K: KeyForm>(
    made: &mut Gathered,
    text: &[u8],
    sort_key: &SortKey<K>,
) -> Result<(), NoMemory>
    requires { IsEndedKey text.now sort_key.now }
    ensures { (all : List ℕ) → IsGathered all made.old
        → OnOk result (IsGathered (all ++ ended (keyed_piece text.now sort_key.now)) made.new) }
{
    let len = sort_key.len();
    if len > LEAD_BYTES {
        return made.add(keyed_with_end(text, sort_key));
    }
    // With two bytes of room behind the lead.
    let mut line = (sort_key.lead() << 16).to_be_bytes();
    line[len] = b'\n';
    made.add(&line[..len + 1])
}
