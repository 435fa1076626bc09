// What is counted in a journal.
ghost use Rattle.std.specs.Prelude.{◌≡◌, ◌<◌, ◌≤◌, ◌++◌, ◌∷◌, [], ℕ, Bool, true, false, List, length, IfOk, OnErr, OnOk, All, Some, count_by, ◌==◌, slice_get};
ghost use Rattle.journal_rules.specs.declared.entry.Entry.{Entry};
ghost use Rattle.journal_rules.specs.declared.entry.Entry.TheVariants.{Start, End, Fault, Drop};
ghost use Rattle.journal_rules.specs.declared.entry.Part.{Part};
ghost use Rattle.journal_rules.specs.declared.entry.Why.{Why};
ghost use Rattle.journal_rules.specs.ShapeLegal.{CauseInRange};
ghost use Rattle.journal_rules.specs.inside.Reached.{IsReached, ClosesTask};
ghost use Rattle.journal_rules.specs.inside.Counted.{IsCounted, CanGrow};

use super::entry::{Cause, DropWhy, Why};
use super::open_starts::OpenStarts;
use super::releases::Releases;
use super::units::Units;
use outside_io::NoMemory;
use std::alloc::Global;
use task_graph::Net;

/// The counts of a journal, which decide in constant time what the rules say of its next entry.
#[derive(Drop)]
pub struct Counts {
    pub releases: Releases,
    pub units: Units,
    pub open_starts: OpenStarts,
    pub starts: u64,
    pub faults: u64,
    /// Whether a release was dropped for want of a unit.
    pub is_stuck: bool,
    /// Whether a release was dropped at the limit.
    pub is_limited: bool,
}

impl Counts {
    /// Those of the empty journal, with room for so many entries.
    pub fn new(alloc: Global, net: &Net, room: usize) -> Result<Counts, NoMemory>
        ensures counted { IfOk result (IsCounted net.now []) }
        ensures room { IfOk result (λ counts. length counts.open_starts ≡ room) }
    {
        Ok(Counts {
            releases: Releases::new(alloc, net)?,
            units: Units::new(alloc, net)?,
            open_starts: OpenStarts::with_room(alloc, room)?,
            starts: 0,
            faults: 0,
            is_stuck: false,
            is_limited: false,
        })
    }

    /// Counts a Start at a place.
    pub fn start(&mut self, net: &Net, place: u64, task: u32, cause: Cause)
        requires task { task < length net.now.tasks }
        requires cause { CauseInRange net.now cause }
        requires grow { CanGrow net.now self.old }
        requires room { slice_get self.old.open_starts place ≡ Some false }
        ensures counted { (limit : ℕ) (journal : List Entry) (ins : List Part)
            → IsReached net.now limit journal → place ≡ length journal
            → IsCounted net.now journal self.old
            → IsCounted net.now (journal ++ Start task cause ins ∷ []) self.new }
        ensures room { length self.new.open_starts ≡ length self.old.open_starts }
    {
        self.releases.use_release(net, task, cause);
        self.units.start(net, task);
        self.open_starts.open(place as usize);
        self.starts += 1;
    }

    /// Counts an End at a place, of a start of a task.
    pub fn end(&mut self, net: &Net, place: u64, start: u64, task: u32, gives: &[u32])
        requires task { task < length net.now.tasks }
        requires edges { All (λ e. e < length net.now.edges) gives.now }
        requires once { (e : ℕ) → count_by (λ g. g == e) gives.now ≤ 1 }
        requires grow { CanGrow net.now self.old }
        requires opened { slice_get self.old.open_starts start ≡ Some true }
        ensures counted { (limit : ℕ) (journal : List Entry) (inner : Bool)
            → IsReached net.now limit journal → place ≡ length journal
            → length journal < length self.old.open_starts → ClosesTask journal start task
            → IsCounted net.now journal self.old
            → IsCounted net.now (journal ++ End start gives.now inner ∷ []) self.new }
        ensures room { length self.new.open_starts ≡ length self.old.open_starts }
    {
        self.releases.give(net, gives);
        self.units.end(net, task, place);
        self.open_starts.close(start as usize);
    }

    /// Counts a Fault at a place, of a start of a task.
    pub fn fault(&mut self, net: &Net, place: u64, start: u64, task: u32)
        requires task { task < length net.now.tasks }
        requires grow { CanGrow net.now self.old }
        requires opened { slice_get self.old.open_starts start ≡ Some true }
        ensures counted { (limit : ℕ) (journal : List Entry) (why : Why)
            → IsReached net.now limit journal → place ≡ length journal
            → length journal < length self.old.open_starts → ClosesTask journal start task
            → IsCounted net.now journal self.old
            → IsCounted net.now (journal ++ Fault start why ∷ []) self.new }
        ensures room { length self.new.open_starts ≡ length self.old.open_starts }
    {
        self.units.fault(net, task, place);
        self.open_starts.close(start as usize);
        self.faults += 1;
    }

    /// Counts a Drop.
    pub fn drop_release(&mut self, net: &Net, task: u32, cause: Cause, why: DropWhy)
        requires task { task < length net.now.tasks }
        requires cause { CauseInRange net.now cause }
        requires grow { CanGrow net.now self.old }
        ensures counted { (limit : ℕ) (journal : List Entry) → IsReached net.now limit journal
            → length journal < length self.old.open_starts → IsCounted net.now journal self.old
            → IsCounted net.now (journal ++ Drop task cause why ∷ []) self.new }
        ensures room { length self.new.open_starts ≡ length self.old.open_starts }
    {
        self.releases.use_release(net, task, cause);
        match why {
            DropWhy::Halted => (),
            DropWhy::Limit => self.is_limited = true,
            DropWhy::Stuck(_) => self.is_stuck = true,
        }
    }
}
