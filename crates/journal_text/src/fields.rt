// The fields of a line.
ghost use Rattle.std.specs.Prelude.{◌≡◌, option_map};
ghost use Rattle.journal_text.specs.inside.Reading.{cause_at, drop_why_at, inner_field_at, over_fault_at, part_at, stuck_drop_at, why_at};

use super::version::Version;
use super::words::{after_word, index_at, named_index_at, named_number_at, number_at};
use journal_rules::{Cause, DropWhy, Part, Why};

/// What a release comes from.
#[tactic(auto, unfolding(crate::specs::inside::Reading::cause_at))]
pub(crate) fn cause_at(bytes: &[u8]) -> Option<(Cause, &[u8])>
    ensures { option_map (λ x. (x.0, x.1.now)) result ≡ cause_at bytes.now }
{
    if let Some(rest) = after_word(bytes, b"source") {
        return Some((Cause::Source, rest));
    }
    if let Some(rest) = after_word(bytes, b"strong") {
        return Some((Cause::Strong, rest));
    }
    let (edge, rest) = named_index_at(bytes, b"weak:")?;
    Some((Cause::Weak(edge), rest))
}

/// What a start finds at an edge.
#[tactic(auto, unfolding(crate::specs::inside::Reading::part_at))]
pub(crate) fn part_at(bytes: &[u8]) -> Option<(Part, &[u8])>
    ensures { option_map (λ x. (x.0, x.1.now)) result ≡ part_at bytes.now }
{
    if let Some(rest) = after_word(bytes, b"first") {
        return Some((Part::First, rest));
    }
    if let Some(rest) = after_word(bytes, b"nothing") {
        return Some((Part::Nothing, rest));
    }
    let (place, rest) = number_at(bytes)?;
    Some((Part::From(place), rest))
}

/// Whether a start's work was a run of its own.
#[tactic(auto, unfolding(crate::specs::inside::Reading::inner_field_at))]
pub(crate) fn inner_field_at(bytes: &[u8]) -> Option<(bool, &[u8])>
    ensures { option_map (λ x. (x.0, x.1.now)) result ≡ inner_field_at bytes.now }
{
    if let Some(rest) = after_word(bytes, b"plain") {
        return Some((false, rest));
    }
    let rest = after_word(bytes, b"inner")?;
    Some((true, rest))
}

/// Why a start faulted.
#[tactic(auto, unfolding(crate::specs::inside::Reading::why_at))]
pub(crate) fn why_at(version: Version, bytes: &[u8]) -> Option<(Why, &[u8])>
    ensures { option_map (λ x. (x.0, x.1.now)) result ≡ why_at version bytes.now }
{
    if let Some((bytes, rest)) = named_number_at(bytes, b"long:") {
        return Some((Why::Long(bytes), rest));
    }
    if let Some((parts, rest)) = named_number_at(bytes, b"wide:") {
        return Some((Why::Wide(parts), rest));
    }
    if let Some((token, rest)) = named_number_at(bytes, b"unmet:") {
        return Some((Why::Unmet(token), rest));
    }
    if let Some(rest) = after_word(bytes, b"inner") {
        return Some((Why::Inner, rest));
    }
    over_fault_at(version, bytes)
}

// A fault by an over-release, which only version 2 has.
fn over_fault_at(version: Version, bytes: &[u8]) -> Option<(Why, &[u8])>
    ensures { option_map (λ x. (x.0, x.1.now)) result ≡ over_fault_at version bytes.now }
{
    match version {
        Version::One => None,
        Version::Two => {
            let (sem, rest) = named_index_at(bytes, b"over:")?;
            Some((Why::OverRelease(sem), rest))
        }
    }
}

/// Why a release was dropped.
#[tactic(auto, unfolding(crate::specs::inside::Reading::drop_why_at))]
pub(crate) fn drop_why_at(version: Version, bytes: &[u8]) -> Option<(DropWhy, &[u8])>
    ensures { option_map (λ x. (x.0, x.1.now)) result ≡ drop_why_at version bytes.now }
{
    if let Some(rest) = after_word(bytes, b"halted") {
        return Some((DropWhy::Halted, rest));
    }
    if let Some(rest) = after_word(bytes, b"limit") {
        return Some((DropWhy::Limit, rest));
    }
    stuck_drop_at(version, bytes)
}

// A drop for want of a unit, which only version 2 has.
fn stuck_drop_at(version: Version, bytes: &[u8]) -> Option<(DropWhy, &[u8])>
    ensures { option_map (λ x. (x.0, x.1.now)) result ≡ stuck_drop_at version bytes.now }
{
    match version {
        Version::One => None,
        Version::Two => {
            let (sem, rest) = named_index_at(bytes, b"stuck:")?;
            Some((DropWhy::Stuck(sem), rest))
        }
    }
}
