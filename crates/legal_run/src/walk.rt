// The judge of journals, made by whomever.
ghost use Rattle.std.specs.Prelude.{◌≡◌, ◌<◌, ◌^◌, [], ℕ, List, length, IfOk, IsSomeAnd, take, slice_get};
ghost use Rattle.journal_rules.specs.declared.entry.Part.{Part};
ghost use Rattle.journal_rules.specs.declared.entry.Entry.TheVariants.{Start, End, Fault, Drop};
ghost use Rattle.legal_run.specs.Verdict.{IsVerdict};
ghost use Rattle.legal_run.specs.inside.Walks.{IsAt, Walks};

use super::marks::Marks;
use super::position::Position;
use super::verdict::{Break, Verdict};
use journal_rules::{Cause, Counts, DropWhy, Entry, Journal, Why};
use outside_io::NoMemory;
use std::alloc::Global;
use task_graph::Net;

/// Judges a journal in one pass: whether it is legal as far as the net decides, and that of a finished run, or which
/// entry is the first that may not follow those before it, and why. What the starts found isn't judged.
pub fn judge(alloc: Global, net: &Net, limit: u64, journal: &Journal) -> Result<Verdict, NoMemory>
    ensures { IfOk result (IsVerdict net.now limit journal.now) }
{
    let entries = journal.as_slice();
    let mut walk = Walk::new(alloc, net, entries.len())?;
    for place in 0..entries.len() {
        if let Err(broken) = walk.step(net, limit, entries, place) {
            return Ok(Verdict::Breaks(place as u64, broken));
        }
    }
    Ok(walk.end_of(net, limit, entries))
}

// What was counted in the entries so far.
#[derive(Drop)]
struct Walk {
    counts: Counts,
    marks: Marks,
}

impl Walk {
    // Before the first of so many entries.
    fn new(alloc: Global, net: &Net, entries: usize) -> Result<Walk, NoMemory>
        ensures at { IfOk result (λ walk. (limit : ℕ) → IsAt net.now limit [] walk) }
        ensures room { IfOk result (λ walk. length walk.counts.open_starts ≡ entries) }
    {
        let counts = Counts::new(alloc, net, entries)?;
        let marks = Marks::new(alloc, net.edges().len())?;
        Ok(Walk { counts, marks })
    }

    // Counts the entry at a place, or says which rule it breaks.
    fn step(&mut self, net: &Net, limit: u64, entries: &[Entry], place: usize) -> Result<(), Break>
        requires place { place < length entries.now }
        requires at { IsAt net.now limit (take place entries.now) self.old }
        requires room { length self.old.counts.open_starts ≡ length entries.now }
        requires size { length entries.now < 2 ^ 61 }
        ensures walks { IsSomeAnd (slice_get entries.now place)
            (λ entry. Walks net.now limit self.new (take place entries.now) entry result) }
        ensures room { length self.new.counts.open_starts ≡ length self.old.counts.open_starts }
    {
        match entries.get(place) {
            Some(entry) => self.count_entry(net, limit, &entries[..place], entry),
            None => unreachable!(),
        }
    }

    // Counts an entry behind others, or says which rule it breaks.
    fn count_entry(
        &mut self,
        net: &Net,
        limit: u64,
        before: &[Entry],
        entry: &Entry,
    ) -> Result<(), Break>
        requires at { IsAt net.now limit before.now self.old }
        requires room { length before.now < length self.old.counts.open_starts }
        requires size { length before.now < 2 ^ 61 }
        ensures walks { Walks net.now limit self.new before.now entry.now result }
        ensures room { length self.new.counts.open_starts ≡ length self.old.counts.open_starts }
    {
        match entry {
            Entry::Start { task, cause, .. } => self.start(net, limit, before, *task, *cause),
            Entry::End {
                start,
                gives,
                inner,
            } => self.end(net, limit, before, *start, gives.as_slice(), *inner),
            Entry::Fault { start, why } => self.fault(net, limit, before, *start, *why),
            Entry::Drop { task, cause, why } => {
                self.drop_release(net, limit, before, *task, *cause, *why)
            }
        }
    }

    fn start(
        &mut self,
        net: &Net,
        limit: u64,
        before: &[Entry],
        task: u32,
        cause: Cause,
    ) -> Result<(), Break>
        requires at { IsAt net.now limit before.now self.old }
        requires room { length before.now < length self.old.counts.open_starts }
        requires size { length before.now < 2 ^ 61 }
        ensures walks { (ins : List Part)
            → Walks net.now limit self.new before.now (Start task cause ins) result }
        ensures room { length self.new.counts.open_starts ≡ length self.old.counts.open_starts }
    {
        let position = Position::new(net, limit, before, &self.counts);
        match position.check_start(task, cause) {
            Ok(()) => (),
            Err(broken) => return Err(broken),
        }
        self.counts.start(net, before.len() as u64, task, cause);
        Ok(())
    }

    fn end(
        &mut self,
        net: &Net,
        limit: u64,
        before: &[Entry],
        start: u64,
        gives: &[u32],
        inner: bool,
    ) -> Result<(), Break>
        requires at { IsAt net.now limit before.now self.old }
        requires room { length before.now < length self.old.counts.open_starts }
        requires size { length before.now < 2 ^ 61 }
        ensures walks { Walks net.now limit self.new before.now (End start gives.now inner) result }
        ensures room { length self.new.counts.open_starts ≡ length self.old.counts.open_starts }
    {
        let position = Position::new(net, limit, before, &self.counts);
        let task = match position.check_end(&mut self.marks, start, gives, inner) {
            Ok(task) => task,
            Err(broken) => return Err(broken),
        };
        self.counts
            .end(net, before.len() as u64, start, task, gives);
        Ok(())
    }

    fn fault(
        &mut self,
        net: &Net,
        limit: u64,
        before: &[Entry],
        start: u64,
        why: Why,
    ) -> Result<(), Break>
        requires at { IsAt net.now limit before.now self.old }
        requires room { length before.now < length self.old.counts.open_starts }
        requires size { length before.now < 2 ^ 61 }
        ensures walks { Walks net.now limit self.new before.now (Fault start why) result }
        ensures room { length self.new.counts.open_starts ≡ length self.old.counts.open_starts }
    {
        let position = Position::new(net, limit, before, &self.counts);
        let task = match position.check_fault(start, why) {
            Ok(task) => task,
            Err(broken) => return Err(broken),
        };
        self.counts.fault(net, before.len() as u64, start, task);
        Ok(())
    }

    fn drop_release(
        &mut self,
        net: &Net,
        limit: u64,
        before: &[Entry],
        task: u32,
        cause: Cause,
        why: DropWhy,
    ) -> Result<(), Break>
        requires at { IsAt net.now limit before.now self.old }
        requires room { length before.now < length self.old.counts.open_starts }
        requires size { length before.now < 2 ^ 61 }
        ensures walks { Walks net.now limit self.new before.now (Drop task cause why) result }
        ensures room { length self.new.counts.open_starts ≡ length self.old.counts.open_starts }
    {
        let position = Position::new(net, limit, before, &self.counts);
        match position.check_drop(task, cause, why) {
            Ok(()) => (),
            Err(broken) => return Err(broken),
        }
        self.counts.drop_release(net, task, cause, why);
        Ok(())
    }

    // What is said of a journal of which each entry may follow those before it.
    fn end_of(&self, net: &Net, limit: u64, entries: &[Entry]) -> Verdict
        requires at { IsAt net.now limit entries.now self.now }
        requires size { length entries.now < 2 ^ 61 }
        ensures { IsVerdict net.now limit entries.now result }
    {
        if Position::new(net, limit, entries, &self.counts).is_complete() {
            Verdict::Complete
        } else {
            Verdict::Legal
        }
    }
}
