// Sort keys of the pieces of a text, in the order of their bytes.
ghost use Rattle.std.specs.Prelude.{◌≡◌, ◌<◌, ◌^◌, drop, slice_index, IfOk};
ghost use Rattle.std.specs.List.Sorted.{IsPermutation, IsSortedBy};
ghost use Rattle.std.specs.Ordering.{is_lt, nat_cmp, ordering_then};
ghost use Rattle.text_ops.specs.Lines.{IsNormal, lines_of};
ghost use Rattle.text_ops.specs.MatchKeys.{match_key};
ghost use Rattle.text_ops.specs.inside.SortKeys.{AreSortedKeys, KeysFit, behind_leads_cmp, lead_of, sort_key_cmp, keyed_piece, keyed_with_end, sort_keys_of, piece_of, tie_of};

use crate::line_ends::line_ends;
use crate::line_walk::Lines;
use crate::sort_key::{KeyForm, LEAD_BYTES, Piece, SortKey};
use memchr::memchr;
use outside_io::NoMemory;
use std::alloc::Global;
use std::cmp::Ordering;

// Sort keys of these pieces of the lines, in the order of their bytes.
pub(crate) fn sorted_keys<K: KeyForm>(
    alloc: Global,
    text: &[u8],
    by: Piece,
) -> Result<Vec<SortKey<K>>, NoMemory>
    requires normal { IsNormal text.now }
    requires fit { KeysFit K.most_start K.most_len text.now }
    ensures { IfOk result (λ sort_keys. AreSortedKeys by text.now sort_keys.items) }
{
    let mut sort_keys = sort_keys_of(alloc, text, by)?;
    order_keys(text, by, &mut sort_keys);
    Ok(sort_keys)
}

// The bytes of the piece, as far as the text has them.
pub(crate) fn keyed_piece<'t, K: KeyForm>(text: &'t [u8], sort_key: &SortKey<K>) -> &'t [u8]
    ensures { result.now ≡ keyed_piece text.now sort_key.now }
{
    let start = sort_key.start().min(text.len());
    let rest = &text[start..];
    let end = sort_key.len().min(rest.len());
    &rest[..end]
}

// The bytes of the piece and the one behind it.
pub(crate) fn keyed_with_end<'t, K: KeyForm>(text: &'t [u8], sort_key: &SortKey<K>) -> &'t [u8]
    ensures { result.now ≡ keyed_with_end text.now sort_key.now }
{
    let start = sort_key.start().min(text.len());
    let rest = &text[start..];
    let end = sort_key.len().saturating_add(1).min(rest.len());
    &rest[..end]
}

// The first six bytes as a number.
pub(crate) fn lead(bytes: &[u8]) -> u64
    ensures value { result ≡ lead_of bytes.now }
    ensures low { result < 2 ^ 48 }
{
    if bytes.len() < LEAD_BYTES {
        return short_lead(bytes);
    }
    u64::from_be_bytes([
        0, 0, bytes[0], bytes[1], bytes[2], bytes[3], bytes[4], bytes[5],
    ])
}

// The same of fewer bytes, with 0 for those that there aren't.
fn short_lead(bytes: &[u8]) -> u64
    ensures value { result ≡ lead_of bytes.now }
    ensures low { result < 2 ^ 48 }
{
    u64::from_be_bytes([
        0,
        0,
        byte_at(bytes, 0),
        byte_at(bytes, 1),
        byte_at(bytes, 2),
        byte_at(bytes, 3),
        byte_at(bytes, 4),
        byte_at(bytes, 5),
    ])
}

// The byte at this place, or 0 where there is none.
fn byte_at(bytes: &[u8], place: usize) -> u8
    ensures { result ≡ slice_index bytes.now place }
{
    match bytes.get(place) {
        Some(byte) => *byte,
        None => 0,
    }
}

// What precedes the first space.
pub(crate) fn match_key(line: &[u8]) -> &[u8]
    ensures { result.now ≡ match_key line.now }
{
    match memchr(b' ', line) {
        Some(end) => &line[..end],
        None => line,
    }
}

// The piece of a line that is meant.
fn piece_of(by: Piece, line: &[u8]) -> &[u8]
    ensures { result.now ≡ piece_of by line.now }
{
    match by {
        Piece::Whole => line,
        Piece::Key => match_key(line),
    }
}

// The sort keys in the order of the lines.
pub(crate) fn sort_keys_of<K: KeyForm>(
    alloc: Global,
    text: &[u8],
    by: Piece,
) -> Result<Vec<SortKey<K>>, NoMemory>
    requires normal { IsNormal text.now }
    requires fit { KeysFit K.most_start K.most_len text.now }
    ensures { IfOk result (λ sort_keys. sort_keys.items ≡ sort_keys_of by 0 (lines_of text.now)) }
{
    let count = line_ends(text);
    let mut sort_keys = Vec::with_capacity(alloc, count)?;
    let mut start = 0;
    for line in Lines::new(text) {
        let piece = piece_of(by, line);
        sort_keys.push(SortKey::new(lead(piece), start, piece.len()))?;
        start += line.len() + 1;
    }
    Ok(sort_keys)
}

// Puts sort keys in the order of their pieces' bytes. With `Piece::Key` those of equal keys are in the order of the
// lines.
pub(crate) fn order_keys<K: KeyForm>(text: &[u8], by: Piece, sort_keys: &mut Vec<SortKey<K>>)
    ensures permutation { IsPermutation sort_keys.old.items sort_keys.new.items }
    ensures sorted { IsSortedBy (λ a b. is_lt (sort_key_cmp by text.now a b)) sort_keys.new.items }
{
    sort_keys.sort_unstable_by(|a, b| compare(text, by, a, b));
}

// By the leads, then by what these don't show.
fn compare<K: KeyForm>(text: &[u8], by: Piece, a: &SortKey<K>, b: &SortKey<K>) -> Ordering
    ensures { result ≡ sort_key_cmp by text.now a.now b.now }
{
    match a.lead().cmp(&b.lead()) {
        Ordering::Equal => compare_pieces(text, by, a, b),
        other => other,
    }
}

// The order of sort keys with equal leads.
fn compare_pieces<K: KeyForm>(text: &[u8], by: Piece, a: &SortKey<K>, b: &SortKey<K>) -> Ordering
    ensures { result ≡ ordering_then
        (behind_leads_cmp (keyed_piece text.now a.now) (keyed_piece text.now b.now))
        (nat_cmp (tie_of by a.now) (tie_of by b.now)) }
{
    match compare_behind_leads(keyed_piece(text, a), keyed_piece(text, b)) {
        Ordering::Equal => tie(by, a).cmp(&tie(by, b)),
        other => other,
    }
}

// Pieces of at most six bytes whose leads are equal differ in their lengths alone.
fn compare_behind_leads(a: &[u8], b: &[u8]) -> Ordering
    ensures { result ≡ behind_leads_cmp a.now b.now }
{
    match a
        .len()
        .min(LEAD_BYTES + 1)
        .cmp(&b.len().min(LEAD_BYTES + 1))
    {
        Ordering::Equal => behind_lead(a).cmp(behind_lead(b)),
        other => other,
    }
}

// The bytes behind the sixth.
fn behind_lead(piece: &[u8]) -> &[u8]
    ensures { result.now ≡ drop 6 piece.now }
{
    &piece[piece.len().min(LEAD_BYTES)..]
}

// Equal lines may come in any order, since they are one and the same, and equal keys are in the order of their lines.
fn tie<K: KeyForm>(by: Piece, sort_key: &SortKey<K>) -> usize
    ensures { result ≡ tie_of by sort_key.now }
{
    match by {
        Piece::Whole => 0,
        Piece::Key => sort_key.start(),
    }
}
