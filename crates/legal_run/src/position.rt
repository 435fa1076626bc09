// Which rule an entry breaks after a journal.
ghost use Rattle.std.specs.Prelude.{◌≡◌, ◌≢◌, ◌↔◌, ◌<◌, ℕ, List, length, count_by, slice_get, IsTrue, IsSomeAnd, MatchOption, MatchResult, IfOk, Some, All};
ghost use Rattle.task_graph.specs.Net.{out_edges};
ghost use Rattle.task_graph.specs.declared.net.TaskRow.{TaskRow};
ghost use Rattle.journal_rules.specs.declared.entry.Entry.TheVariants.{Start, End, Fault, Drop};
ghost use Rattle.journal_rules.specs.declared.entry.Part.{Part};
ghost use Rattle.journal_rules.specs.Counts.{starts, faults, started, start_at, is_open, NoneOpen};
ghost use Rattle.journal_rules.specs.ReleaseRule.{IsReleased};
ghost use Rattle.journal_rules.specs.ChoiceRule.{GivesFit, InnerFits};
ghost use Rattle.journal_rules.specs.SemaphoreRule.{OverReleaseRule, takes, HasUnit};
ghost use Rattle.journal_rules.specs.HaltLimitStuckRule.{is_stuck_why, DropRule, MayBeStuck};
ghost use Rattle.journal_rules.specs.Complete.{Complete, is_limited};
ghost use Rattle.journal_rules.specs.ShapeLegal.{MayFollow, CauseInRange, WhyInRange, DropWhyInRange};
ghost use Rattle.legal_run.specs.Refusal.{IsRefusal};
ghost use Rattle.journal_rules.specs.MissingUnits.{IsLeast, WantsUnit, PutsWithNothingOut};
ghost use Rattle.journal_rules.specs.inside.Reached.{ClosesTask};
ghost use Rattle.journal_rules.specs.inside.Releases.{NoneLeft, CountsReleases, AreFew};
ghost use Rattle.legal_run.specs.inside.Checks.{BreaksWhy};
ghost use Rattle.journal_rules.specs.inside.Counted.{IsPosition};

use super::choice::{gives_fit, inner_fits};
use super::marks::Marks;
use super::verdict::Break;
use journal_rules::{Cause, Counts, DropWhy, Entry, Releases, Why, has_unit, is_listed, task_row};
use std::marker::Model;
use task_graph::Net;

/// A shape-legal journal of a net, with what was counted in it. Contracts see the net, the limit of starts and the
/// journal. Each question takes time in proportion to the edges and semaphores that it is about.
#[derive(Drop)]
pub struct Position<'j> {
    net: &'j Net,
    limit: u64,
    journal: &'j [Entry],
    counts: &'j Counts,
}

impl<'j> Model for Position<'j> {
    ghost use Rattle.legal_run.specs.MachineState.{MachineState};
    ghost use Rattle.journal_rules.specs.inside.Counted.{IsPosition};

    ghost Value = { MachineState };

    ghost view = { λ p. record { net = p.net.now; limit = p.limit; journal = p.journal.now } };

    ghost invariant = { λ p. IsPosition p.net.now p.limit p.journal.now p.counts.now };
}

impl<'j> Position<'j> {
    /// The position after a journal.
    pub fn new(net: &'j Net, limit: u64, journal: &'j [Entry], counts: &'j Counts) -> Position<'j>
        requires { IsPosition net.now limit journal.now counts.now }
        ensures { result ≡ record { net = net.now; limit = limit; journal = journal.now } }
    {
        Position {
            net,
            limit,
            journal,
            counts,
        }
    }

    /// Which rule a Start breaks, if any. What it finds doesn't matter.
    pub fn check_start(&self, task: u32, cause: Cause) -> Result<(), Break>
        ensures { (ins : List Part) → MatchResult result
            (λ _. MayFollow self.now.net self.now.limit self.now.journal (Start task cause ins))
            (λ break. IsRefusal self.now.net self.now.limit self.now.journal
            (Start task cause ins) break) }
    {
        if !self.names(task, cause) {
            return Err(Break::NoSuch);
        }
        if self.counts.is_stuck {
            return Err(Break::AfterStuck);
        }
        if !self.is_released(task, cause) {
            return Err(Break::NotReleased);
        }
        if let Some(sem) = self.wanted(task) {
            return Err(Break::OverUnits(sem));
        }
        if self.counts.starts >= self.limit {
            return Err(Break::OverLimit);
        }
        Ok(())
    }

    // Whether a release names a task and an edge of the net.
    fn names(&self, task: u32, cause: Cause) -> bool
        ensures { IsTrue result
            ↔ ((task < length self.now.net.tasks) × CauseInRange self.now.net cause) }
    {
        let is_task = (task as usize) < self.net.tasks().len();
        match cause {
            Cause::Source | Cause::Strong => is_task,
            Cause::Weak(edge) => is_task && (edge as usize) < self.net.edges().len(),
        }
    }

    // Whether a task has an unused release of a cause.
    fn is_released(&self, task: u32, cause: Cause) -> bool
        requires task { task < length self.now.net.tasks }
        requires cause { CauseInRange self.now.net cause }
        ensures { IsTrue result ↔ IsReleased self.now.net self.now.journal task cause }
    {
        self.counts.releases.is_released(self.net, task, cause)
    }

    // The least semaphore that a task takes and that has no unit.
    fn wanted(&self, task: u32) -> Option<u32>
        requires { task < length self.now.net.tasks }
        ensures { MatchOption result ((s : ℕ) → ¬ WantsUnit self.now.net self.now.journal task s)
            (λ s. IsLeast (WantsUnit self.now.net self.now.journal task) s) }
    {
        self.counts.units.wanted(self.net, task)
    }

    /// Which rule an End breaks, if any; else the task of the start that it closes.
    pub fn check_end(
        &self,
        marks: &mut Marks,
        start: u64,
        gives: &[u32],
        inner: bool,
    ) -> Result<u32, Break>
        requires { marks.old ≡ length self.now.net.edges }
        ensures checked { MatchResult result
            (λ task. MayFollow self.now.net self.now.limit self.now.journal
            (End start gives.now inner)
            × ClosesTask self.now.journal start task)
            (λ break. IsRefusal self.now.net self.now.limit self.now.journal
            (End start gives.now inner) break) }
        ensures task { IfOk result (λ task. task < length self.now.net.tasks) }
        ensures marks { marks.new ≡ marks.old }
    {
        if !each_below(gives, self.net.edges().len()) {
            return Err(Break::NoSuch);
        }
        if self.counts.is_stuck {
            return Err(Break::AfterStuck);
        }
        let Some(task) = self.open_task(start) else {
            return Err(Break::NotOpen);
        };
        if !self.fits(marks, task, gives, inner) {
            return Err(Break::NotChosen);
        }
        if let Some(sem) = self.not_out(task) {
            return Err(Break::NothingOut(sem));
        }
        Ok(task)
    }

    // The task of the open Start at a place, if one is there.
    fn open_task(&self, start: u64) -> Option<u32>
        ensures { MatchOption result (¬ IsTrue (is_open self.now.journal start))
            (λ task. (ClosesTask self.now.journal start task
            × IsTrue (is_open self.now.journal start))
            × (task < length self.now.net.tasks)) }
    {
        if !self.counts.open_starts.is_open(start as usize) {
            return None;
        }
        start_at(self.journal, start)
    }

    // Whether an End of a task may give these edges.
    fn fits(&self, marks: &mut Marks, task: u32, gives: &[u32], inner: bool) -> bool
        requires task { task < length self.now.net.tasks }
        requires edges { All (λ e. e < length self.now.net.edges) gives.now }
        requires marks { marks.old ≡ length self.now.net.edges }
        ensures fits { IsTrue result
            ↔ IsSomeAnd (slice_get self.now.net.tasks task)
            (λ (row : TaskRow). GivesFit row.shape (out_edges self.now.net task) gives.now
            × InnerFits row.shape inner) }
        ensures marks { marks.new ≡ marks.old }
    {
        let shape = task_row(self.net, task).shape;
        inner_fits(shape, inner) && gives_fit(self.net, marks, shape, task, gives)
    }

    // The least semaphore that a task puts and of which nothing is out.
    fn not_out(&self, task: u32) -> Option<u32>
        requires { task < length self.now.net.tasks }
        ensures { MatchOption result
            ((s : ℕ) → ¬ PutsWithNothingOut self.now.net self.now.journal task s)
            (λ s. IsLeast (PutsWithNothingOut self.now.net self.now.journal task) s) }
    {
        self.counts.units.not_out(self.net, task)
    }

    /// Which rule a Fault breaks, if any; else the task of the start that it closes.
    pub fn check_fault(&self, start: u64, why: Why) -> Result<u32, Break>
        ensures checked { MatchResult result
            (λ task. MayFollow self.now.net self.now.limit self.now.journal (Fault start why)
            × ClosesTask self.now.journal start task)
            (λ break. IsRefusal self.now.net self.now.limit self.now.journal
            (Fault start why) break) }
        ensures task { IfOk result (λ task. task < length self.now.net.tasks) }
    {
        if !self.is_why_in_range(why) {
            return Err(Break::NoSuch);
        }
        if self.counts.is_stuck {
            return Err(Break::AfterStuck);
        }
        let Some(task) = self.open_task(start) else {
            return Err(Break::NotOpen);
        };
        if !self.is_true_fault(start, task, why) {
            return Err(Break::NotOver);
        }
        Ok(task)
    }

    // Whether the semaphore of a fault is the net's.
    fn is_why_in_range(&self, why: Why) -> bool
        ensures { IsTrue result ↔ WhyInRange self.now.net why }
    {
        match why {
            Why::OverRelease(sem) => (sem as usize) < self.net.sems().len(),
            _ => true,
        }
    }

    // Whether what a fault of the start at a place, of a task, says of a unit is true.
    fn is_true_fault(&self, start: u64, task: u32, why: Why) -> bool
        requires task { task < length self.now.net.tasks }
        requires started { start_at self.now.journal start ≡ Some task }
        requires why { WhyInRange self.now.net why }
        ensures { IsTrue result ↔ OverReleaseRule self.now.net self.now.journal start why }
    {
        match why {
            Why::OverRelease(sem) => {
                self.counts
                    .units
                    .is_over_release(self.net, task, sem, start)
            }
            _ => true,
        }
    }

    /// Which rule a Drop breaks, if any.
    pub fn check_drop(&self, task: u32, cause: Cause, why: DropWhy) -> Result<(), Break>
        ensures { MatchResult result
            (λ _. MayFollow self.now.net self.now.limit self.now.journal (Drop task cause why))
            (λ break. IsRefusal self.now.net self.now.limit self.now.journal
            (Drop task cause why) break) }
    {
        if !self.names(task, cause) || !self.has_drop_why(why) {
            return Err(Break::NoSuch);
        }
        if self.counts.is_stuck && !is_stuck(why) {
            return Err(Break::AfterStuck);
        }
        if !self.is_released(task, cause) {
            return Err(Break::NotReleased);
        }
        self.check_why(task, why)
    }

    // Whether the semaphore of a drop is the net's.
    fn has_drop_why(&self, why: DropWhy) -> bool
        ensures { IsTrue result ↔ DropWhyInRange self.now.net why }
    {
        match why {
            DropWhy::Stuck(sem) => (sem as usize) < self.net.sems().len(),
            _ => true,
        }
    }

    // Whether a drop of a task has its cause.
    fn check_why(&self, task: u32, why: DropWhy) -> Result<(), Break>
        requires task { task < length self.now.net.tasks }
        requires why { DropWhyInRange self.now.net why }
        ensures { MatchResult result (λ _. DropRule self.now.net self.now.journal task why)
            (λ break. BreaksWhy self.now.net self.now.journal task why break) }
    {
        match why {
            DropWhy::Halted if self.has_no_fault() => Err(Break::NotHalted),
            DropWhy::Stuck(sem) if !self.may_be_stuck(task, sem) => Err(Break::NotStuck),
            _ => Ok(()),
        }
    }

    // Whether a release of a task may be dropped for want of a unit of a semaphore.
    fn may_be_stuck(&self, task: u32, sem: u32) -> bool
        requires task { task < length self.now.net.tasks }
        requires sem { sem < length self.now.net.sems }
        ensures { IsTrue result ↔ MayBeStuck self.now.net self.now.journal task sem }
    {
        self.has_no_fault() && self.is_idle() && self.takes(task, sem) && !self.has_unit(sem)
    }

    // Whether nothing has faulted.
    fn has_no_fault(&self) -> bool
        ensures { IsTrue result ↔ (faults self.now.journal ≡ 0) }
    {
        self.counts.faults == 0
    }

    // Whether no start is open.
    fn is_idle(&self) -> bool
        ensures { IsTrue result ↔ NoneOpen self.now.journal }
    {
        self.counts.open_starts.is_empty()
    }

    fn takes(&self, task: u32, sem: u32) -> bool
        requires { task < length self.now.net.tasks }
        ensures { result ≡ takes self.now.net sem task }
    {
        is_listed(task_row(self.net, task).takes.as_slice(), sem)
    }

    fn has_unit(&self, sem: u32) -> bool
        requires { sem < length self.now.net.sems }
        ensures { IsTrue result ↔ HasUnit self.now.net sem self.now.journal }
    {
        let at = sem as usize;
        has_unit(&self.counts.units.counts[at], self.net.sems()[at])
    }

    /// Whether the journal is that of a finished run.
    pub fn is_complete(&self) -> bool
        ensures { IsTrue result ↔ Complete self.now.net self.now.limit self.now.journal }
    {
        if !self.is_idle() {
            return false;
        }
        if !self.is_used_up() {
            return false;
        }
        self.reaches_limit()
    }

    /// What was counted of releases.
    pub fn releases(&self) -> &'j Releases
        ensures counted { CountsReleases self.now.net self.now.journal result.now }
        ensures few { AreFew self.now.net result.now }
    {
        &self.counts.releases
    }

    // Whether each release is used.
    fn is_used_up(&self) -> bool
        ensures { IsTrue result ↔ NoneLeft self.now.net self.now.journal }
    {
        self.counts.releases.are_used_up(self.net)
    }

    // Whether all the starts were made, if a release was dropped at the limit.
    fn reaches_limit(&self) -> bool
        ensures { IsTrue result
            ↔ (count_by is_limited self.now.journal ≢ 0
            → starts self.now.journal ≡ self.now.limit) }
    {
        !self.counts.is_limited || self.counts.starts == self.limit
    }
}

// The task of the Start at a place, if one is there.
fn start_at(journal: &[Entry], place: u64) -> Option<u32>
    ensures { result ≡ start_at journal.now place }
{
    started(journal.get(place as usize)?)
}

// The task that a Start starts.
fn started(entry: &Entry) -> Option<u32>
    ensures { result ≡ started entry.now }
{
    match entry {
        Entry::Start { task, .. } => Some(*task),
        _ => None,
    }
}

// Whether a drop says that a unit is wanting.
fn is_stuck(why: DropWhy) -> bool
    ensures { result ≡ is_stuck_why why }
{
    matches!(why, DropWhy::Stuck(_))
}

// Whether each number is below a bound.
fn each_below(numbers: &[u32], bound: usize) -> bool
    ensures { IsTrue result ↔ All (λ n. n < bound) numbers.now }
{
    numbers.iter().all(|n| (*n as usize) < bound)
}
