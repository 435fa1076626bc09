// Texts in memory, of which given calls fail.
ghost use Rattle.std.specs.Prelude.{◌≡◌, ◌≢◌, ◌↔◌, [], AllPairs, Contains, EachIndex, IfOk, IsTrue, Some, bytes_eq, option_copied, position, slice_get, slice_index_or};
ghost use Rattle.outside_io.specs.Texts.{Finds, IsWithin};
ghost use Rattle.outside_io.specs.MemoryTexts.{AreNamed, text_under, CountsCall};

use crate::ports::failed_read;
use crate::{Bytes, Found, List, NoMemory, Texts, TextsFault};
use std::alloc::Global;
use std::marker::Model;

/// Texts in memory. Its calls are numbered from 0, and exactly those fail that it was given. A call that answers
/// `NoMemory` isn't numbered; that comes also where a call is to fail and there is no room for its name. Numbers end
/// below the greatest `u64`: a call that would have that number answers `NoMemory`.
#[derive(Drop)]
pub struct MemoryTexts {
    names: List<Bytes>,
    texts: List<Bytes>,
    failing: List<u64>,
    calls: u64,
    failed: List<Bytes>,
}

impl Model for MemoryTexts {
    ghost use Rattle.outside_io.specs.MemoryTexts.{HeldTexts};

    ghost Value = { HeldTexts };

    ghost view = { λ m. record {
      names = m.names;
      texts = m.texts;
      failing = m.failing;
      calls = m.calls;
      failed = m.failed;
    } };
}

impl MemoryTexts {
    /// Each text is held under the name at its place. The calls whose numbers are in `failing` fail.
    pub fn new(
        alloc: Global,
        names: List<Bytes>,
        texts: List<Bytes>,
        failing: List<u64>,
    ) -> MemoryTexts
        requires { AreNamed names texts }
        ensures state { result
            ≡ record { names = names; texts = texts; failing = failing; calls = 0; failed = [] } }
        ensures each { EachIndex names (λ place.
            text_under names texts (slice_index_or names place []) ≡ slice_get texts place) }
    {
        MemoryTexts {
            names,
            texts,
            failing,
            calls: 0,
            failed: List::new(alloc),
        }
    }

    /// Whether each text has a name and the names differ, as `new` asks.
    pub fn are_named(names: &List<Bytes>, texts: &List<Bytes>) -> bool
        ensures { IsTrue result ↔ AreNamed names.now texts.now }
    {
        names.len() == texts.len() && all_differ(names.as_slice())
    }
}

// Whether no name is at two places.
fn all_differ(names: &[Bytes]) -> bool
    ensures { IsTrue result ↔ AllPairs (λ name other. name ≢ other) names.now }
{
    for (place, name) in names.iter().enumerate() {
        if has(&names[..place], name.as_slice()) {
            return false;
        }
    }
    true
}

fn has(names: &[Bytes], name: &[u8]) -> bool
    ensures { IsTrue result ↔ Contains names.now name.now }
{
    names.iter().any(|held| held.as_slice() == name)
}

impl Texts for MemoryTexts {
    ghost held = { λ m. Some (text_under m.names m.texts) };

    ghost failed = { λ m. m.failed };

    fn read(&mut self, alloc: Global, name: &[u8], max: u64) -> Result<Found, TextsFault>
        ensures found { IfOk result
            (Finds (text_under self.old.names self.old.texts name.now) max) }
        ensures within { IfOk result (IsWithin max) }
        ensures counts { CountsCall self.old self.new name.now result }
    {
        if self.calls == u64::MAX {
            return Err(TextsFault::NoMemory);
        }
        if self.failing.contains(&self.calls) {
            let fault = failed_read(alloc, &mut self.failed, name);
            if let TextsFault::Failed = fault {
                self.calls += 1;
            }
            return Err(fault);
        }
        let found = find_text(
            alloc,
            self.names.as_slice(),
            self.texts.as_slice(),
            name,
            max,
        )?;
        self.calls += 1;
        Ok(found)
    }
}

// Copies the text under a name, where it has at most `max` bytes.
fn find_text(
    alloc: Global,
    names: &[Bytes],
    texts: &[Bytes],
    name: &[u8],
    max: u64,
) -> Result<Found, NoMemory>
    ensures { IfOk result (Finds (text_under names.now texts.now name.now) max) }
{
    let Some(text) = text_at(names, texts, name) else {
        return Ok(Found::Missing);
    };
    if text.len() as u64 > max {
        return Ok(Found::Longer);
    }
    let text = List::from_slice(alloc, text.as_slice())?;
    Ok(Found::Text(text))
}

fn text_at<'t>(names: &[Bytes], texts: &'t [Bytes], name: &[u8]) -> Option<&'t Bytes>
    ensures { option_copied result ≡ text_under names.now texts.now name.now }
{
    texts.get(index_of(names, name)?)
}

fn index_of(names: &[Bytes], name: &[u8]) -> Option<usize>
    ensures { result ≡ position (λ held. bytes_eq held name.now) names.now }
{
    names.iter().position(|held| held.as_slice() == name)
}
