// Lists in a line: items with commas between them, or a dash where there is none.
ghost use Rattle.std.specs.Prelude.{◌≡◌, ◌++◌, ◌∷◌, ◌≤◌, [], ℕ, List, Option, IfOk, IsErrOf, length, option_map};
ghost use Rattle.journal_text.specs.inside.Reading.{ReadsTo, comma_count, index_at, items_at, items_on, list_at, next_item, part_at};

use super::fields::part_at;
use super::line_fault::LineFault;
use super::words::{after_word, index_at};
use journal_rules::Part;
use outside_io::List;
use std::alloc::Global;

// The most items for which a list takes room before they are read.
const FIRST_ROOM: usize = 1_024;

/// What a list in a line has as an item.
pub(crate) trait ListItem: Copy + Drop {
    /// How an item is read.
    ghost read_at: { List ℕ → Option (Self × List ℕ) };

    /// The item at the front, and what follows it.
    fn item_at(bytes: &[u8]) -> Option<(Self, &[u8])>
        ensures { option_map (λ x. (x.0, x.1.now)) result ≡ read_at bytes.now };
}

impl ListItem for Part {
    ghost read_at = { part_at };

    fn item_at(bytes: &[u8]) -> Option<(Self, &[u8])> {
        part_at(bytes)
    }
}

impl ListItem for u32 {
    ghost read_at = { index_at };

    fn item_at(bytes: &[u8]) -> Option<(Self, &[u8])> {
        index_at(bytes)
    }
}

/// The list at the front, and what follows it.
#[tactic(auto, unfolding(crate::specs::inside::Reading::list_at))]
pub(crate) fn list_at<T: ListItem>(
    alloc: Global,
    bytes: &[u8],
) -> Result<(List<T>, &[u8]), LineFault>
    ensures { ReadsTo (λ x. (x.0, x.1.now)) result (list_at T.read_at bytes.now) }
{
    if let Some(rest) = after_word(bytes, b"-") {
        return Ok((List::new(alloc), rest));
    }
    items_at(alloc, bytes)
}

// One item or more. The list has room for as many as there are, or else grows: bytes that are all commas take none.
#[tactic(auto, unfolding(crate::specs::inside::Reading::items_at))]
fn items_at<T: ListItem>(alloc: Global, bytes: &[u8]) -> Result<(List<T>, &[u8]), LineFault>
    ensures { ReadsTo (λ x. (x.0, x.1.now)) result (items_at T.read_at bytes.now) }
{
    let Some((first, rest)) = T::item_at(bytes) else {
        return Err(LineFault::Bad);
    };
    let commas = comma_count(bytes);
    let mut items = List::with_room(alloc, commas.min(FIRST_ROOM) + 1)?;
    items.push(first)?;
    let rest = more_items(&mut items, commas, rest)?;
    Ok((items, rest))
}

// Puts so many items at the end, which have a comma before each, and gives what follows them.
fn more_items<'a, T: ListItem>(
    items: &mut List<T>,
    count: usize,
    bytes: &'a [u8],
) -> Result<&'a [u8], LineFault>
    ensures read { IfOk result
        (λ rest. (more : List T) × (items.new ≡ items.old ++ more)
        × (items_on T.read_at count bytes.now ≡ Some (more, rest.now))) }
    ensures bad { IsErrOf result LineFault.Bad → items_on T.read_at count bytes.now ≡ None }
{
    let mut rest = bytes;
    for _ in 0..count {
        rest = push_next(items, rest)?;
    }
    Ok(rest)
}

// Puts the item behind a comma at the end, and gives what follows it.
fn push_next<'a, T: ListItem>(items: &mut List<T>, bytes: &'a [u8]) -> Result<&'a [u8], LineFault>
    ensures read { IfOk result
        (λ rest. (x : T) × (items.new ≡ items.old ++ x ∷ [])
        × (next_item T.read_at bytes.now ≡ Some (x, rest.now))) }
    ensures bad { IsErrOf result LineFault.Bad → next_item T.read_at bytes.now ≡ None }
{
    let Some((item, rest)) = next_item(bytes) else {
        return Err(LineFault::Bad);
    };
    items.push(item)?;
    Ok(rest)
}

// A comma and an item.
fn next_item<T: ListItem>(bytes: &[u8]) -> Option<(T, &[u8])>
    ensures { option_map (λ x. (x.0, x.1.now)) result ≡ next_item T.read_at bytes.now }
{
    T::item_at(after_word(bytes, b",")?)
}

// How many commas there are before the end of the list.
fn comma_count(bytes: &[u8]) -> usize
    ensures value { result ≡ comma_count bytes.now }
    ensures most { result ≤ length bytes.now }
{
    let mut count = 0;
    for byte in bytes {
        if *byte == b' ' || *byte == b'\n' {
            return count;
        }
        if *byte == b',' {
            count += 1;
        }
    }
    count
}
