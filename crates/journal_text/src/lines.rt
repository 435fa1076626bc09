// The lines of a journal's text.
ghost use Rattle.std.specs.Prelude.{◌≡◌, option_map};
ghost use Rattle.journal_text.specs.inside.Reading.{ReadsTo, drop_line_at, end_line_at, entry_at, fault_line_at, last_inner_field_at, place_at, release_at, start_line_at, task_at, unlisted_at, version_at};

use super::fields::{cause_at, drop_why_at, inner_field_at, why_at};
use super::line_fault::LineFault;
use super::lists::list_at;
use super::version::Version;
use super::words::{after_word, index_at, number_at};
use journal_rules::{Cause, Entry};
use std::alloc::Global;

/// The version that the first line names, and what follows that line.
#[tactic(auto, unfolding(crate::specs::inside::Reading::version_at))]
pub(crate) fn version_at(bytes: &[u8]) -> Option<(Version, &[u8])>
    ensures { option_map (λ x. (x.0, x.1.now)) result ≡ version_at bytes.now }
{
    if let Some(rest) = after_word(bytes, b"flow journal 2\n") {
        return Some((Version::Two, rest));
    }
    let rest = after_word(bytes, b"flow journal 1\n")?;
    Some((Version::One, rest))
}

/// The entry of the line at the front, and what follows the line.
#[tactic(auto, unfolding(crate::specs::inside::Reading::entry_at))]
pub(crate) fn entry_at(
    alloc: Global,
    version: Version,
    bytes: &[u8],
) -> Result<(Entry, &[u8]), LineFault>
    ensures { ReadsTo (λ x. (x.0, x.1.now)) result (entry_at version bytes.now) }
{
    if let Some(rest) = after_word(bytes, b"start ") {
        return start_line_at(alloc, rest);
    }
    if let Some(rest) = after_word(bytes, b"end ") {
        return end_line_at(alloc, rest);
    }
    unlisted_at(version, bytes).ok_or(LineFault::Bad)
}

// A fault or a drop, which have no list.
#[tactic(auto, unfolding(crate::specs::inside::Reading::unlisted_at))]
fn unlisted_at(version: Version, bytes: &[u8]) -> Option<(Entry, &[u8])>
    ensures { option_map (λ x. (x.0, x.1.now)) result ≡ unlisted_at version bytes.now }
{
    if let Some(rest) = after_word(bytes, b"fault ") {
        return fault_line_at(version, rest);
    }
    drop_line_at(version, after_word(bytes, b"drop ")?)
}

// The line of a start, behind its first word.
#[tactic(auto, unfolding(crate::specs::inside::Reading::start_line_at))]
fn start_line_at(alloc: Global, bytes: &[u8]) -> Result<(Entry, &[u8]), LineFault>
    ensures { ReadsTo (λ x. (x.0, x.1.now)) result (start_line_at bytes.now) }
{
    let Some(((task, cause), rest)) = release_at(bytes) else {
        return Err(LineFault::Bad);
    };
    let (ins, rest) = list_at(alloc, rest)?;
    let Some(rest) = after_word(rest, b"\n") else {
        return Err(LineFault::Bad);
    };
    Ok((Entry::Start { task, cause, ins }, rest))
}

// The line of an end, behind its first word.
#[tactic(auto, unfolding(crate::specs::inside::Reading::end_line_at))]
fn end_line_at(alloc: Global, bytes: &[u8]) -> Result<(Entry, &[u8]), LineFault>
    ensures { ReadsTo (λ x. (x.0, x.1.now)) result (end_line_at bytes.now) }
{
    let Some((start, rest)) = place_at(bytes) else {
        return Err(LineFault::Bad);
    };
    let (gives, rest) = list_at(alloc, rest)?;
    let Some((inner, rest)) = last_inner_field_at(rest) else {
        return Err(LineFault::Bad);
    };
    Ok((
        Entry::End {
            start,
            gives,
            inner,
        },
        rest,
    ))
}

// A space, whether a start's work was a run of its own, and the end of the line.
#[tactic(auto, unfolding(crate::specs::inside::Reading::last_inner_field_at))]
fn last_inner_field_at(bytes: &[u8]) -> Option<(bool, &[u8])>
    ensures { option_map (λ x. (x.0, x.1.now)) result ≡ last_inner_field_at bytes.now }
{
    let (inner, rest) = inner_field_at(after_word(bytes, b" ")?)?;
    Some((inner, after_word(rest, b"\n")?))
}

// The line of a fault, behind its first word.
#[tactic(auto, unfolding(crate::specs::inside::Reading::fault_line_at))]
fn fault_line_at(version: Version, bytes: &[u8]) -> Option<(Entry, &[u8])>
    ensures { option_map (λ x. (x.0, x.1.now)) result ≡ fault_line_at version bytes.now }
{
    let (start, rest) = place_at(bytes)?;
    let (why, rest) = why_at(version, rest)?;
    Some((Entry::Fault { start, why }, after_word(rest, b"\n")?))
}

// The line of a drop, behind its first word.
#[tactic(auto, unfolding(crate::specs::inside::Reading::drop_line_at))]
fn drop_line_at(version: Version, bytes: &[u8]) -> Option<(Entry, &[u8])>
    ensures { option_map (λ x. (x.0, x.1.now)) result ≡ drop_line_at version bytes.now }
{
    let ((task, cause), rest) = release_at(bytes)?;
    let (why, rest) = drop_why_at(version, rest)?;
    Some((Entry::Drop { task, cause, why }, after_word(rest, b"\n")?))
}

// A place and a space.
#[tactic(auto, unfolding(crate::specs::inside::Reading::place_at))]
fn place_at(bytes: &[u8]) -> Option<(u64, &[u8])>
    ensures { option_map (λ x. (x.0, x.1.now)) result ≡ place_at bytes.now }
{
    let (place, rest) = number_at(bytes)?;
    Some((place, after_word(rest, b" ")?))
}

// A task and a space.
#[tactic(auto, unfolding(crate::specs::inside::Reading::task_at))]
fn task_at(bytes: &[u8]) -> Option<(u32, &[u8])>
    ensures { option_map (λ x. (x.0, x.1.now)) result ≡ task_at bytes.now }
{
    let (task, rest) = index_at(bytes)?;
    Some((task, after_word(rest, b" ")?))
}

// A task and what its release comes from, and a space behind each.
#[tactic(auto, unfolding(crate::specs::inside::Reading::release_at))]
fn release_at(bytes: &[u8]) -> Option<((u32, Cause), &[u8])>
    ensures { option_map (λ x. (x.0, x.1.now)) result ≡ release_at bytes.now }
{
    let (task, rest) = task_at(bytes)?;
    let (cause, rest) = cause_at(rest)?;
    Some(((task, cause), after_word(rest, b" ")?))
}
