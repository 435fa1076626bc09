// What is counted of each semaphore.
ghost use Rattle.std.specs.Prelude.{◌≡◌, ◌==◌, ◌<◌, ◌^◌, ◌++◌, ◌∷◌, [], ◌↔◌, ◌⊎◌, ◌+◌, ℕ, Bool, List, Some, length, IsTrue, IfOk, All, MatchOption};
ghost use Rattle.std.specs.List.{list_any};
ghost use Rattle.std.specs.List.Sorted.{IsStrictlyIncreasing};
ghost use Rattle.journal_rules.specs.declared.entry.Cause.{Cause};
ghost use Rattle.journal_rules.specs.declared.entry.Part.{Part};
ghost use Rattle.journal_rules.specs.declared.entry.Why.{Why};
ghost use Rattle.journal_rules.specs.declared.entry.Entry.{Entry};
ghost use Rattle.journal_rules.specs.declared.entry.Entry.TheVariants.{Start, End, Fault};
ghost use Rattle.journal_rules.specs.declared.units.UnitCount.{UnitCount};
ghost use Rattle.journal_rules.specs.Counts.{start_at};
ghost use Rattle.journal_rules.specs.SemaphoreRule.{IsOverRelease};
ghost use Rattle.journal_rules.specs.MissingUnits.{IsLeast, WantsUnit, PutsWithNothingOut};
ghost use Rattle.journal_rules.specs.inside.Reached.{IsReached, ClosesTask, IsRowOf};
ghost use Rattle.journal_rules.specs.inside.Units.{CountsUnits, AreSmall, IsFirstWithout, HasUnitLeft, IsOut, Changed, with_taken, with_putter, with_back, with_closed, always, is_other};

use outside_io::NoMemory;
use std::alloc::Global;
use task_graph::{Net, TaskRow};

/// The counts of a semaphore. Its units are out from the starts that take it to the ends that put it.
///
/// A start that puts it, and perhaps takes it, would give back a unit that isn't out where in some prefix that has
/// the start the other claims are as many as the units that come from elsewhere. In numbers: where `putters` was
/// above `closed_takers` after the start.
#[derive(Clone, Copy)]
pub struct UnitCount {
    /// The units taken.
    pub taken: u64,
    /// The units that are back.
    pub back: u64,
    /// The starts of tasks that put it and don't take it.
    pub putters: u64,
    /// The closed starts of tasks that take it and don't put it.
    pub closed_takers: u64,
    /// The length of the journal when `putters` was last above `closed_takers`, unless it still is.
    pub last_over: u64,
}

impl UnitCount {
    // Whether `putters` was above `closed_takers` after the entry at a place.
    fn was_over(&self, place: u64) -> bool
        ensures { IsTrue result
            ↔ ((place < self.now.last_over) ⊎ (self.now.closed_takers < self.now.putters)) }
    {
        place < self.last_over || self.closed_takers < self.putters
    }

    // Counts that a start is closed whose task takes the semaphore and doesn't put it.
    fn close_taker(&mut self, place: u64)
        requires { self.old.closed_takers < 2 ^ 63 }
        ensures { self.new ≡ with_closed place self.old }
    {
        if self.putters == self.closed_takers + 1 {
            self.last_over = place;
        }
        self.closed_takers += 1;
    }
}

/// The counts of each semaphore.
#[derive(Drop)]
pub struct Units {
    /// By semaphore.
    pub counts: Vec<UnitCount>,
}

impl Units {
    /// Those of a run that hasn't begun.
    pub fn new(alloc: Global, net: &Net) -> Result<Units, NoMemory>
        ensures { IfOk result (λ units. CountsUnits net.now [] units.counts.items) }
    {
        let none = UnitCount {
            taken: 0,
            back: 0,
            putters: 0,
            closed_takers: 0,
            last_over: 0,
        };
        Ok(Units {
            counts: vec![in alloc; none; net.sems().len()]?,
        })
    }

    /// The least semaphore that a task takes and that has no unit.
    pub fn wanted(&self, net: &Net, task: u32) -> Option<u32>
        requires task { task < length net.now.tasks }
        requires len { length self.now.counts.items ≡ length net.now.sems }
        requires small { AreSmall self.now.counts.items }
        ensures { (journal : List Entry) → CountsUnits net.now journal self.now.counts.items
            → MatchOption result ((s : ℕ) → ¬ WantsUnit net.now journal task s)
            (λ s. IsLeast (WantsUnit net.now journal task) s) }
    {
        let row = task_row(net, task);
        self.first_without(net.sems(), row.takes.as_slice())
    }

    // The first of these semaphores that has no unit.
    fn first_without(&self, maxima: &[u32], sems: &[u32]) -> Option<u32>
        requires in_range { All (λ s. s < length self.now.counts.items) sems.now }
        requires maxima { length maxima.now ≡ length self.now.counts.items }
        requires small { AreSmall self.now.counts.items }
        ensures { IsFirstWithout (HasUnitLeft self.now.counts.items maxima.now) sems.now result }
    {
        for sem in sems {
            if !has_unit(&self.counts[*sem as usize], maxima[*sem as usize]) {
                return Some(*sem);
            }
        }
        None
    }

    /// The least semaphore that a task puts and of which nothing is out.
    pub fn not_out(&self, net: &Net, task: u32) -> Option<u32>
        requires task { task < length net.now.tasks }
        requires len { length self.now.counts.items ≡ length net.now.sems }
        ensures { (journal : List Entry) → CountsUnits net.now journal self.now.counts.items
            → MatchOption result ((s : ℕ) → ¬ PutsWithNothingOut net.now journal task s)
            (λ s. IsLeast (PutsWithNothingOut net.now journal task) s) }
    {
        let row = task_row(net, task);
        self.first_not_out(row.puts.as_slice())
    }

    // The first of these semaphores of which nothing is out.
    fn first_not_out(&self, sems: &[u32]) -> Option<u32>
        requires { All (λ s. s < length self.now.counts.items) sems.now }
        ensures { IsFirstWithout (IsOut self.now.counts.items) sems.now result }
    {
        for sem in sems {
            let count = &self.counts[*sem as usize];
            if count.back == count.taken {
                return Some(*sem);
            }
        }
        None
    }

    /// Whether the start at a place, of a task, would give back a unit of a semaphore that isn't out.
    pub fn is_over_release(&self, net: &Net, task: u32, sem: u32, place: u64) -> bool
        requires task { task < length net.now.tasks }
        requires sem { sem < length net.now.sems }
        requires len { length self.now.counts.items ≡ length net.now.sems }
        ensures { (journal : List Entry) → CountsUnits net.now journal self.now.counts.items
            → start_at journal place ≡ Some task
            → (IsTrue result ↔ IsOverRelease net.now journal sem place task) }
    {
        is_listed(task_row(net, task).puts.as_slice(), sem)
            && self.counts[sem as usize].was_over(place)
    }

    /// Counts a start of a task.
    pub fn start(&mut self, net: &Net, task: u32)
        requires task { task < length net.now.tasks }
        requires len { length self.old.counts.items ≡ length net.now.sems }
        requires small { AreSmall self.old.counts.items }
        ensures { (limit : ℕ) (journal : List Entry) (cause : Cause) (ins : List Part)
            → IsReached net.now limit journal → CountsUnits net.now journal self.old.counts.items
            → CountsUnits net.now (journal ++ Start task cause ins ∷ []) self.new.counts.items }
    {
        let row = task_row(net, task);
        let takes = row.takes.as_slice();
        take_each(&mut self.counts, takes);
        add_putters(&mut self.counts, row.puts.as_slice(), takes);
    }

    /// Counts an end of a start of a task, at a place in the journal.
    pub fn end(&mut self, net: &Net, task: u32, place: u64)
        requires task { task < length net.now.tasks }
        requires len { length self.old.counts.items ≡ length net.now.sems }
        requires small { AreSmall self.old.counts.items }
        ensures { (limit : ℕ) (journal : List Entry) (start : ℕ) (gives : List ℕ) (inner : Bool)
            → IsReached net.now limit journal → ClosesTask journal start task
            → place ≡ length journal → CountsUnits net.now journal self.old.counts.items
            → CountsUnits net.now (journal ++ End start gives inner ∷ []) self.new.counts.items }
    {
        let row = task_row(net, task);
        let puts = row.puts.as_slice();
        give_back_each(&mut self.counts, puts);
        close_takers(&mut self.counts, row.takes.as_slice(), puts, place);
    }

    /// Counts a fault of a start of a task, at a place in the journal.
    pub fn fault(&mut self, net: &Net, task: u32, place: u64)
        requires task { task < length net.now.tasks }
        requires len { length self.old.counts.items ≡ length net.now.sems }
        requires small { AreSmall self.old.counts.items }
        ensures { (limit : ℕ) (journal : List Entry) (start : ℕ) (why : Why)
            → IsReached net.now limit journal → ClosesTask journal start task
            → place ≡ length journal → CountsUnits net.now journal self.old.counts.items
            → CountsUnits net.now (journal ++ Fault start why ∷ []) self.new.counts.items }
    {
        let row = task_row(net, task);
        close_takers(
            &mut self.counts,
            row.takes.as_slice(),
            row.puts.as_slice(),
            place,
        );
    }
}

/// Whether a semaphore with this maximum has a unit, by its counts.
pub fn has_unit(count: &UnitCount, max: u32) -> bool
    requires { count.now.back < 2 ^ 63 }
    ensures { IsTrue result ↔ (count.now.taken < count.now.back + max) }
{
    count.taken < count.back + u64::from(max)
}

/// The row of a task.
pub fn task_row(net: &Net, task: u32) -> &TaskRow
    requires { task < length net.now.tasks }
    ensures { IsRowOf net.now task result.now }
{
    &net.tasks()[task as usize]
}

/// Whether a semaphore is in a rising list.
pub fn is_listed(sems: &[u32], sem: u32) -> bool
    requires { IsStrictlyIncreasing sems.now }
    ensures { result ≡ list_any (λ s. s == sem) sems.now }
{
    sems.binary_search(&sem).is_ok()
}

// Counts that each of these semaphores is taken.
fn take_each(counts: &mut Vec<UnitCount>, sems: &[u32])
    requires rising { IsStrictlyIncreasing sems.now }
    requires in_range { All (λ s. s < length counts.old.items) sems.now }
    requires room { All (λ (u : UnitCount). u.taken < 2 ^ 63) counts.old.items }
    ensures { Changed with_taken always counts.old.items counts.new.items sems.now }
{
    for sem in sems {
        counts[*sem as usize].taken += 1;
    }
}

// Counts that each of these semaphores will be put, which isn't taken.
fn add_putters(counts: &mut Vec<UnitCount>, puts: &[u32], takes: &[u32])
    requires rising { IsStrictlyIncreasing puts.now }
    requires takes_rising { IsStrictlyIncreasing takes.now }
    requires in_range { All (λ s. s < length counts.old.items) puts.now }
    requires room { All (λ (u : UnitCount). u.putters < 2 ^ 63) counts.old.items }
    ensures { Changed with_putter (is_other takes.now) counts.old.items counts.new.items puts.now }
{
    for sem in puts {
        if !is_listed(takes, *sem) {
            counts[*sem as usize].putters += 1;
        }
    }
}

// Counts that a unit of each of these semaphores is back.
fn give_back_each(counts: &mut Vec<UnitCount>, sems: &[u32])
    requires rising { IsStrictlyIncreasing sems.now }
    requires in_range { All (λ s. s < length counts.old.items) sems.now }
    requires room { All (λ (u : UnitCount). u.back < 2 ^ 63) counts.old.items }
    ensures { Changed with_back always counts.old.items counts.new.items sems.now }
{
    for sem in sems {
        counts[*sem as usize].back += 1;
    }
}

// Counts that a start is closed that took these semaphores and puts those.
fn close_takers(counts: &mut Vec<UnitCount>, takes: &[u32], puts: &[u32], place: u64)
    requires rising { IsStrictlyIncreasing takes.now }
    requires puts_rising { IsStrictlyIncreasing puts.now }
    requires in_range { All (λ s. s < length counts.old.items) takes.now }
    requires room { All (λ (u : UnitCount). u.closed_takers < 2 ^ 63) counts.old.items }
    ensures { Changed (with_closed place) (is_other puts.now)
        counts.old.items counts.new.items takes.now }
{
    for sem in takes {
        if !is_listed(puts, *sem) {
            counts[*sem as usize].close_taker(place);
        }
    }
}
