// The texts that a task finds at its edges.
ghost use Rattle.std.specs.Prelude.{◌≡◌, [], length, IfOk, IfSome, IsErrOf, OnOk, MatchOption};
ghost use Rattle.text_ops.specs.Lines.{IsNormal};
ghost use Rattle.text_ops.specs.Values.{Makes};
ghost use Rattle.text_tasks.specs.inside.Finding.{text_of_edge, text_from};

use crate::item::Item;
use join_words::{Given, Ins};
use outside_io::{List, NoMemory};
use std::alloc::Global;
use text_ops::{ApplyError, Text, VALUE_LIMIT};

// The text of a task, as a value. Where it is too long it isn't put together.
pub(crate) fn whole_text(alloc: Global, ins: &Ins<Item>) -> Result<Text, ApplyError>
    ensures value { Makes (text_from ins.now 0) result }
    ensures normal { ¬ IsErrOf result ApplyError.NoMemory → IsNormal (text_from ins.now 0) }
{
    let len = found_len(ins, 0)?;
    if len > VALUE_LIMIT {
        return Err(ApplyError::Long(len));
    }
    Ok(text_from(alloc, ins, 0)?)
}

// The texts at the edges from a place on, one behind the other. Where all but one are empty its bytes are shared.
pub(crate) fn text_from(alloc: Global, ins: &Ins<Item>, from: usize) -> Result<Text, NoMemory>
    ensures { IfOk result (λ text. text ≡ text_from ins.now from) }
{
    if let Some(text) = lone_text(ins, from) {
        return text.share();
    }
    let len = found_len(ins, from)?;
    put_together(alloc, ins, from, len as usize)
}

// The text at an edge, unless it is empty.
pub(crate) fn text_of_edge(ins: &Ins<Item>, place: usize) -> Option<&Text>
    ensures value { MatchOption result (text_of_edge ins.now place ≡ [])
        (λ text. text.now ≡ text_of_edge ins.now place) }
    ensures normal { IsNormal (text_of_edge ins.now place) }
{
    let Some(Given::Value(_, item)) = ins.get(place) else {
        return None;
    };
    let text = item.text();
    if text.as_slice().is_empty() {
        return None;
    }
    Some(text)
}

// Its bytes.
fn bytes_at(ins: &Ins<Item>, place: usize) -> &[u8]
    ensures value { result.now ≡ text_of_edge ins.now place }
    ensures normal { IsNormal result.now }
{
    match text_of_edge(ins, place) {
        Some(text) => text.as_slice(),
        None => &[],
    }
}

// The one text from a place on that isn't empty, if there is just one.
#[tactic(auto, using(crate::proofs::FoundLemmas::text_from_next, crate::proofs::FoundLemmas::text_from_end))]
pub(crate) fn lone_text(ins: &Ins<Item>, from: usize) -> Option<&Text>
    ensures { IfSome result (λ text. text.now ≡ text_from ins.now from) }
{
    let mut lone = None;
    for place in from..ins.len() {
        if let Some(text) = text_of_edge(ins, place) {
            if lone.is_some() {
                return None;
            }
            lone = Some(text);
        }
    }
    lone
}

// How many bytes the texts from a place on have, if they can be counted. They are counted from the last one on.
#[tactic(auto, using(crate::proofs::FoundLemmas::text_from_next, crate::proofs::FoundLemmas::text_from_end))]
fn found_len(ins: &Ins<Item>, from: usize) -> Result<u64, NoMemory>
    ensures len { IfOk result (λ len. len ≡ length (text_from ins.now from)) }
    ensures normal { OnOk result (IsNormal (text_from ins.now from)) }
{
    let mut len = 0u64;
    for place in (from..ins.len()).rev() {
        let Some(more) = len.checked_add(bytes_at(ins, place).len() as u64) else {
            return Err(NoMemory);
        };
        len = more;
    }
    Ok(len)
}

// A copy of the texts from a place on, which have so many bytes.
#[tactic(auto, using(crate::proofs::FoundLemmas::text_from_next, crate::proofs::FoundLemmas::text_from_end))]
fn put_together(alloc: Global, ins: &Ins<Item>, from: usize, len: usize) -> Result<Text, NoMemory>
    ensures { IfOk result (λ text. text ≡ text_from ins.now from) }
{
    let mut bytes = List::with_room(alloc, len)?;
    for place in from..ins.len() {
        bytes.add_all(bytes_at(ins, place))?;
    }
    Text::from_lines(alloc, bytes)
}
