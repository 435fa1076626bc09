// Lines joined with what others have behind the same key.
ghost use Rattle.std.specs.Prelude.{◌≡◌};
ghost use Rattle.std.specs.Option.{option_copied, option_map};
ghost use Rattle.text_ops.specs.Lines.{IsNormal, lines_of};
ghost use Rattle.text_ops.specs.MatchKeys.{behind_key, first_with};
ghost use Rattle.text_ops.specs.TextMeaning.{match_meaning};
ghost use Rattle.text_ops.specs.Values.{Makes};
ghost use Rattle.text_ops.specs.declared.sort_key.Piece.TheVariants.{Key as KeyPiece};
ghost use Rattle.text_ops.specs.inside.SortKeys.{AreSortedKeys, KeysFit, lead_of};
ghost use Rattle.text_ops.specs.inside.KeySlots.{LeadToFirst};
ghost use Rattle.text_ops.specs.inside.Matching.{IsFirstPlace, behind_sort_key, is_before};

use crate::gathered::{ApplyError, Gathered};
use crate::key_slots::{filled_slots, look_up};
use crate::line_walk::Lines;
use crate::short_keys::short_keys_fit;
use crate::slots::Probed;
use crate::sort_key::{KeyForm, LongKey, Piece, ShortKey, SortKey};
use crate::sort_keys::{keyed_piece, lead, match_key, order_keys, sort_keys_of};
use crate::text::Text;
use memchr::memchr;
use std::alloc::Global;
use std::cmp::Ordering;

/// The lines of the left whose key is that of some line of the right, each with what follows the key of the
/// first such line. The key of a line is what precedes its first space, or the whole line.
pub fn match_lines(alloc: Global, left: &Text, right: &Text) -> Result<Text, ApplyError>
    ensures { Makes (match_meaning left.now right.now) result }
{
    let (lines, others) = (left.as_slice(), right.as_slice());
    if short_keys_fit(others) {
        return match_by_sort_keys::<ShortKey>(alloc, lines, others);
    }
    match_by_sort_keys::<LongKey>(alloc, lines, others)
}

fn match_by_sort_keys<K: KeyForm>(
    alloc: Global,
    left: &[u8],
    right: &[u8],
) -> Result<Text, ApplyError>
    requires left { IsNormal left.now }
    requires right { IsNormal right.now }
    requires fit { KeysFit K.most_start K.most_len right.now }
    ensures { Makes (match_meaning left.now right.now) result }
{
    let mut sort_keys = sort_keys_of::<K>(alloc, right, Piece::Key)?;
    if let Some(slots) = filled_slots(alloc, right, sort_keys.as_slice())? {
        return match_by_slots(alloc, left, right, sort_keys.as_slice(), slots.as_slice());
    }
    order_keys(right, Piece::Key, &mut sort_keys);
    match_in_order(alloc, left, right, sort_keys.as_slice())
}

// The same, where slots lead to the first line with a key.
fn match_by_slots<K: KeyForm>(
    alloc: Global,
    left: &[u8],
    right: &[u8],
    sort_keys: &[SortKey<K>],
    slots: &[u32],
) -> Result<Text, ApplyError>
    requires left { IsNormal left.now }
    requires right { IsNormal right.now }
    requires slots { LeadToFirst right.now sort_keys.now slots.now }
    ensures { Makes (match_meaning left.now right.now) result }
{
    let mut made = Gathered::new(alloc);
    for line in Lines::new(left) {
        if let Some(rest) = behind_found(right, sort_keys, slots, match_key(line)) {
            made.add_line(line, rest)?;
        }
    }
    made.finish(alloc)
}

// What follows this key in the first line that has it, by slots.
fn behind_found<'t, K: KeyForm>(
    text: &'t [u8],
    sort_keys: &[SortKey<K>],
    slots: &[u32],
    key: &[u8],
) -> Option<&'t [u8]>
    requires slots { LeadToFirst text.now sort_keys.now slots.now }
    requires normal { IsNormal text.now }
    ensures { option_copied result
        ≡ option_map behind_key (first_with key.now (lines_of text.now)) }
{
    let Probed::Row(row) = look_up(text, sort_keys, slots, key) else {
        return None;
    };
    Some(behind(text, sort_keys.get(row)?))
}

// The same as `match_by_slots`, by a search among sort keys in order.
fn match_in_order<K: KeyForm>(
    alloc: Global,
    left: &[u8],
    right: &[u8],
    sort_keys: &[SortKey<K>],
) -> Result<Text, ApplyError>
    requires left { IsNormal left.now }
    requires right { IsNormal right.now }
    requires sort_keys { AreSortedKeys KeyPiece right.now sort_keys.now }
    ensures { Makes (match_meaning left.now right.now) result }
{
    let mut made = Gathered::new(alloc);
    for line in Lines::new(left) {
        if let Some(rest) = behind_first(right, sort_keys, match_key(line)) {
            made.add_line(line, rest)?;
        }
    }
    made.finish(alloc)
}

// What follows this key in the first line that has it.
fn behind_first<'t, K: KeyForm>(
    text: &'t [u8],
    sort_keys: &[SortKey<K>],
    key: &[u8],
) -> Option<&'t [u8]>
    requires sort_keys { AreSortedKeys KeyPiece text.now sort_keys.now }
    requires normal { IsNormal text.now }
    ensures { option_copied result
        ≡ option_map behind_key (first_with key.now (lines_of text.now)) }
{
    let place = first_place(text, sort_keys, key);
    let sort_key = sort_keys.get(place)?;
    if keyed_piece(text, sort_key) != key {
        return None;
    }
    Some(behind(text, sort_key))
}

// How many sort keys have a key below this one.
fn first_place<K: KeyForm>(text: &[u8], sort_keys: &[SortKey<K>], key: &[u8]) -> usize
    requires sort_keys { AreSortedKeys KeyPiece text.now sort_keys.now }
    requires normal { IsNormal text.now }
    ensures { IsFirstPlace text.now key.now sort_keys.now result }
{
    let lead = lead(key);
    sort_keys.partition_point(|sort_key| is_before(text, sort_key, lead, key))
}

// Whether a sort key's key is below this one, whose lead is given.
fn is_before<K: KeyForm>(text: &[u8], sort_key: &SortKey<K>, lead: u64, key: &[u8]) -> bool
    requires { lead ≡ lead_of key.now }
    ensures { result ≡ is_before text.now key.now sort_key.now }
{
    match sort_key.lead().cmp(&lead) {
        Ordering::Equal => keyed_piece(text, sort_key).cmp(key).is_lt(),
        order => order.is_lt(),
    }
}

// What follows a sort key in its line.
fn behind<'t, K: KeyForm>(text: &'t [u8], sort_key: &SortKey<K>) -> &'t [u8]
    ensures { result.now ≡ behind_sort_key text.now sort_key.now }
{
    let start = sort_key
        .start()
        .saturating_add(sort_key.len())
        .min(text.len());
    let rest = &text[start..];
    match memchr(b'\n', rest) {
        Some(end) => &rest[..end],
        None => rest,
    }
}
