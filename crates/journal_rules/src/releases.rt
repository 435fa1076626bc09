// How often each release was given and used.
ghost use Rattle.std.specs.Prelude.{◌≡◌, ◌↔◌, ◌==◌, ◌+◌, ◌-◌, ◌<◌, ◌≤◌, ◌^◌, ◌++◌, ◌∷◌, [], ℕ, Bool, List, length, map, IsTrue, IfOk, All, count_by};
ghost use Rattle.task_graph.specs.NetRows.{NetRows};
ghost use Rattle.task_graph.specs.Net.{strong_in};
ghost use Rattle.journal_rules.specs.declared.entry.Entry.{Entry};
ghost use Rattle.journal_rules.specs.declared.entry.Entry.TheVariants.{End};
ghost use Rattle.journal_rules.specs.declared.entry.Cause.TheVariants.{Source, Strong, Weak};
ghost use Rattle.journal_rules.specs.Counts.{given, used, used_weak};
ghost use Rattle.journal_rules.specs.TimesLeft.{times_left};
ghost use Rattle.journal_rules.specs.ReleaseRule.{IsReleased};
ghost use Rattle.journal_rules.specs.Complete.{least, EachTask, EachEdge};
ghost use Rattle.journal_rules.specs.ShapeLegal.{CauseInRange};
ghost use Rattle.journal_rules.specs.inside.Releases.{CountsReleases, AreFew, IsUseOf, AreUsedUp, SourceUsed, RoundsUsed, WeakUsed};

use super::entry::Cause;
use super::rounds::Rounds;
use super::slots;
use outside_io::NoMemory;
use std::alloc::Global;
use task_graph::Net;

/// The tokens given, and the releases used.
#[derive(Drop)]
pub struct Releases {
    pub rounds: Rounds,
    /// By edge: the releases by it that were used, if it is weak.
    pub used_weak: Vec<u64>,
    /// By task: the releases by its strong in-edges that were used.
    pub used: Vec<u64>,
    /// By task: the releases as a source task that were used.
    pub used_source: Vec<u64>,
}

impl Releases {
    /// Those of a run that hasn't begun.
    pub fn new(alloc: Global, net: &Net) -> Result<Releases, NoMemory>
        ensures { IfOk result (CountsReleases net.now []) }
    {
        let tasks = net.tasks().len();
        let edges = net.edges().len();
        Ok(Releases {
            rounds: Rounds::new(alloc, net)?,
            used_weak: vec![in alloc; 0; edges]?,
            used: vec![in alloc; 0; tasks]?,
            used_source: vec![in alloc; 0; tasks]?,
        })
    }

    /// Counts that a release is used.
    pub fn use_release(&mut self, net: &Net, task: u32, cause: Cause)
        requires task { task < length net.now.tasks }
        requires cause { CauseInRange net.now cause }
        requires few { AreFew net.now self.old }
        ensures { (journal : List Entry) (entry : Entry) → IsUseOf task cause entry
            → CountsReleases net.now journal self.old
            → CountsReleases net.now (journal ++ entry ∷ []) self.new }
    {
        match cause {
            Cause::Source => slots::add_one(&mut self.used_source, task as usize),
            Cause::Strong => slots::add_one(&mut self.used, task as usize),
            Cause::Weak(edge) => slots::add_one(&mut self.used_weak, edge as usize),
        }
    }

    /// Counts the tokens that an End gives.
    pub fn give(&mut self, net: &Net, gives: &[u32])
        requires edges { All (λ e. e < length net.now.edges) gives.now }
        requires few { AreFew net.now self.old }
        requires once { (e : ℕ) → count_by (λ g. g == e) gives.now ≤ 1 }
        ensures { (journal : List Entry) (start : ℕ) (inner : Bool)
            → CountsReleases net.now journal self.old
            → CountsReleases net.now (journal ++ End start gives.now inner ∷ []) self.new }
    {
        self.rounds.give(net, gives);
    }

    /// Whether a task has an unused release of a cause.
    pub fn is_released(&self, net: &Net, task: u32, cause: Cause) -> bool
        requires task { task < length net.now.tasks }
        requires cause { CauseInRange net.now cause }
        requires few { AreFew net.now self.now }
        ensures { (journal : List Entry) → CountsReleases net.now journal self.now
            → (IsTrue result ↔ IsReleased net.now journal task cause) }
    {
        match cause {
            Cause::Source => net.is_source(task) && self.used_source[task as usize] == 0,
            Cause::Strong => { self.used[task as usize] < self.rounds.by_task[task as usize].least }
            Cause::Weak(edge) => self.is_weakly_released(net, task, edge),
        }
    }

    // Whether a weak edge leads to a task and holds a token.
    fn is_weakly_released(&self, net: &Net, task: u32, edge: u32) -> bool
        requires edge { edge < length net.now.edges }
        requires few { AreFew net.now self.now }
        ensures { (journal : List Entry) → CountsReleases net.now journal self.now
            → (IsTrue result ↔ IsReleased net.now journal task (Weak edge)) }
    {
        net.is_weak(edge)
            && net.edges()[edge as usize].to == task
            && self.used_weak[edge as usize] < self.rounds.given[edge as usize]
    }

    /// How many rounds of tokens the strong in-edges of a task hold.
    pub fn rounds_left(&self, net: &Net, task: u32) -> u64
        requires task { task < length net.now.tasks }
        requires few { AreFew net.now self.now }
        ensures { (journal : List Entry) → CountsReleases net.now journal self.now
            → result
            ≡ least (map (λ e. given net.now e journal) (strong_in net.now task))
            - used task journal }
    {
        self.rounds.by_task[task as usize]
            .least
            .saturating_sub(self.used[task as usize])
    }

    /// Whether the one release of a task is left, if it is a source task.
    pub fn source_left(&self, net: &Net, task: u32) -> u64
        requires task { task < length net.now.tasks }
        requires few { AreFew net.now self.now }
        ensures { (journal : List Entry) → CountsReleases net.now journal self.now
            → result ≡ times_left net.now journal task Source }
    {
        if net.is_source(task) {
            1u64.saturating_sub(self.used_source[task as usize])
        } else {
            0
        }
    }

    /// How many tokens a weak edge holds.
    pub fn tokens_left(&self, net: &Net, edge: u32) -> u64
        requires edge { edge < length net.now.edges }
        requires few { AreFew net.now self.now }
        ensures { (journal : List Entry) → CountsReleases net.now journal self.now
            → result ≡ given net.now edge journal - used_weak edge journal }
    {
        self.rounds.given[edge as usize].saturating_sub(self.used_weak[edge as usize])
    }

    /// Whether each release is used.
    pub fn are_used_up(&self, net: &Net) -> bool
        requires few { AreFew net.now self.now }
        ensures { IsTrue result ↔ AreUsedUp net.now self.now }
    {
        self.are_sources_used(net) && self.are_rounds_used(net) && self.are_weak_edges_used(net)
    }

    // Whether each source task's one release is used.
    fn are_sources_used(&self, net: &Net) -> bool
        requires few { AreFew net.now self.now }
        ensures { IsTrue result
            ↔ ((t : ℕ) → t < length net.now.tasks → SourceUsed net.now self.now t) }
    {
        for task in 0..net.tasks().len() as u32 {
            if !self.is_source_used(net, task) {
                return false;
            }
        }
        true
    }

    fn is_source_used(&self, net: &Net, task: u32) -> bool
        requires task { task < length net.now.tasks }
        requires few { AreFew net.now self.now }
        ensures { IsTrue result ↔ SourceUsed net.now self.now task }
    {
        !net.is_source(task) || self.used_source[task as usize] == 1
    }

    // Whether each task has used as many rounds of its strong in-edges as they were given.
    fn are_rounds_used(&self, net: &Net) -> bool
        requires few { AreFew net.now self.now }
        ensures { IsTrue result ↔ ((t : ℕ) → t < length net.now.tasks → RoundsUsed self.now t) }
    {
        for task in 0..net.tasks().len() {
            if self.used[task] != self.rounds.by_task[task].least {
                return false;
            }
        }
        true
    }

    // Whether each token of a weak edge is used.
    fn are_weak_edges_used(&self, net: &Net) -> bool
        requires few { AreFew net.now self.now }
        ensures { IsTrue result
            ↔ ((e : ℕ) → e < length net.now.edges → WeakUsed net.now self.now e) }
    {
        for edge in 0..net.edges().len() as u32 {
            if !self.is_weak_edge_used(net, edge) {
                return false;
            }
        }
        true
    }

    fn is_weak_edge_used(&self, net: &Net, edge: u32) -> bool
        requires edge { edge < length net.now.edges }
        requires few { AreFew net.now self.now }
        ensures { IsTrue result ↔ WeakUsed net.now self.now edge }
    {
        !net.is_weak(edge) || self.used_weak[edge as usize] == self.rounds.given[edge as usize]
    }
}
