// The machine of one thread: it keeps a legal journal, and refuses each entry that would break it.
ghost use Rattle.std.specs.Prelude.{◌≡◌, ◌↔◌, ◌≤◌, ◌<◌, ◌++◌, ◌∷◌, ◌-◌, [], ℕ, List, length, map, IsTrue, IfOk, IfErr, OnOk, OnErr, ◌^◌};
ghost use Rattle.std.specs.Arc.{arc_value};
ghost use Rattle.task_graph.specs.Net.{strong_in};
ghost use Rattle.journal_rules.specs.declared.entry.Entry.TheVariants.{End, Fault, Drop};
ghost use Rattle.journal_rules.specs.Counts.{given, used, is_open};
ghost use Rattle.journal_rules.specs.ShapeLegal.{ShapeLegal, MeetsDataRule, CauseInRange};
ghost use Rattle.journal_rules.specs.Complete.{Complete, least};
ghost use Rattle.journal_rules.specs.Waiting.{waiting_parts};
ghost use Rattle.net_machine.specs.Ready.{ready_list};
ghost use Rattle.net_machine.specs.Machine.{Starts, Ends, Faults, Drops, Refuses, start_entry};
ghost use Rattle.journal_rules.specs.inside.Counted.{CountsOpen};

use super::machine_error::MachineError;
use super::ready::{ReadyRelease, ready_list};
use super::waiting::Waiting;
use journal_rules::{Cause, Counts, DropWhy, Entry, Journal, OpenStarts, Part, Why};
use legal_run::{Marks, Position};
use outside_io::{List, NoMemory};
use std::alloc::Global;
use std::marker::Model;
use std::sync::Arc;
use task_graph::Net;

/// A run of a net by one thread, as far as it has come.
///
/// Contracts see the net, the limit of starts and the journal (`MachineState`). A step takes time in proportion to
/// the edges and semaphores of its task, and an End of a task that chooses in proportion to the edges that it gives,
/// whatever the length of the journal: beside the journal the machine keeps what the rules count in it.
#[derive(Drop)]
pub struct Machine {
    alloc: Global,
    net: Arc<Net>,
    limit: u64,
    journal: Journal,
    counts: Counts,
    waiting: Waiting,
    marks: Marks,
}

impl Model for Machine {
    ghost use Rattle.std.specs.Arc.{arc_value};
    ghost use Rattle.legal_run.specs.MachineState.{MachineState};
    ghost use Rattle.net_machine.specs.inside.Kept.{IsMachineFor};

    ghost Value = { MachineState };

    ghost view = { λ m. record { net = arc_value m.net; limit = m.limit; journal = m.journal } };

    ghost invariant = { λ m. IsMachineFor (arc_value m.net) m.limit m.journal m.counts
        m.waiting.parts.items m.marks };
}

impl Machine {
    /// A run that hasn't begun.
    pub fn new(alloc: Global, net: Arc<Net>, limit: u64) -> Result<Machine, NoMemory>
        ensures { IfOk result
            (λ m. m ≡ record { net = arc_value net; limit = limit; journal = [] }) }
    {
        let _rows = net.tasks();
        let counts = Counts::new(alloc, &net, 0)?;
        let waiting = Waiting::new(alloc, &net)?;
        let marks = Marks::new(alloc, net.edges().len())?;
        Ok(Machine {
            alloc,
            net,
            limit,
            journal: List::new(alloc),
            counts,
            waiting,
            marks,
        })
    }

    /// The journal so far. It is legal as far as the net decides, and each start in it found what it may.
    pub fn journal(&self) -> &Journal
        ensures journal { result.now ≡ self.now.journal }
        ensures legal { ShapeLegal self.now.net self.now.limit self.now.journal }
        ensures data_rule { MeetsDataRule self.now.net self.now.journal }
    {
        &self.journal
    }

    /// Starts a task by a release, and gives the index of the Start. Its parts are what waits at the edges that
    /// release it. After an `Err` nothing has changed.
    pub fn start(&mut self, task: u32, cause: Cause) -> Result<u64, MachineError>
        ensures started { IfOk result (Starts self.old self.new task cause) }
        ensures opened { IfOk result (λ place. IsTrue (is_open self.new.journal place)) }
        ensures refused { IfErr result (Refuses self.old (start_entry self.old task cause)) }
        ensures err { OnErr result (self.new ≡ self.old) }
    {
        match self.position().check_start(task, cause) {
            Ok(()) => (),
            Err(broken) => return Err(broken.into()),
        }
        let Ok(ins) = self.waiting.parts_of(self.alloc, &self.net, task, cause) else {
            return Err(MachineError::NoMemory);
        };
        let entry = Entry::Start { task, cause, ins };
        let Ok(place) = append(&mut self.journal, &mut self.counts.open_starts, entry) else {
            return Err(MachineError::NoMemory);
        };
        self.counts.start(&self.net, place, task, cause);
        self.waiting.take(&self.net, task, cause);
        Ok(place)
    }

    /// Ends the start at an index, gives these edges a token each, and gives the index of the End. `inner` says that
    /// the start's work was a run of its own. After an `Err` nothing has changed.
    pub fn end(&mut self, start: u64, gives: &[u32], inner: bool) -> Result<u64, MachineError>
        ensures ended { IfOk result (Ends self.old self.new start gives.now inner) }
        ensures refused { IfErr result (Refuses self.old (End start gives.now inner)) }
        ensures err { OnErr result (self.new ≡ self.old) }
    {
        let journal = self.journal.as_slice();
        let position = Position::new(&self.net, self.limit, journal, &self.counts);
        let task = match position.check_end(&mut self.marks, start, gives, inner) {
            Ok(task) => task,
            Err(broken) => return Err(broken.into()),
        };
        let Ok(list) = List::from_slice(self.alloc, gives) else {
            return Err(MachineError::NoMemory);
        };
        let entry = Entry::End {
            start,
            gives: list,
            inner,
        };
        let Ok(place) = append(&mut self.journal, &mut self.counts.open_starts, entry) else {
            return Err(MachineError::NoMemory);
        };
        self.counts.end(&self.net, place, start, task, gives);
        self.waiting.give(gives, place);
        Ok(place)
    }

    /// Records that the start at an index faulted, and gives the index of the Fault. After an `Err` nothing has
    /// changed.
    pub fn fault(&mut self, start: u64, why: Why) -> Result<u64, MachineError>
        ensures faulted { IfOk result (Faults self.old self.new start why) }
        ensures refused { IfErr result (Refuses self.old (Fault start why)) }
        ensures err { OnErr result (self.new ≡ self.old) }
    {
        let task = match self.position().check_fault(start, why) {
            Ok(task) => task,
            Err(broken) => return Err(broken.into()),
        };
        let entry = Entry::Fault { start, why };
        let Ok(place) = append(&mut self.journal, &mut self.counts.open_starts, entry) else {
            return Err(MachineError::NoMemory);
        };
        self.counts.fault(&self.net, place, start, task);
        Ok(place)
    }

    /// Uses a release up without a start, and gives the index of the Drop. After an `Err` nothing has changed.
    pub fn drop_release(
        &mut self,
        task: u32,
        cause: Cause,
        why: DropWhy,
    ) -> Result<u64, MachineError>
        ensures dropped { IfOk result (Drops self.old self.new task cause why) }
        ensures refused { IfErr result (Refuses self.old (Drop task cause why)) }
        ensures err { OnErr result (self.new ≡ self.old) }
    {
        match self.position().check_drop(task, cause, why) {
            Ok(()) => (),
            Err(broken) => return Err(broken.into()),
        }
        let entry = Entry::Drop { task, cause, why };
        let Ok(place) = append(&mut self.journal, &mut self.counts.open_starts, entry) else {
            return Err(MachineError::NoMemory);
        };
        self.counts.drop_release(&self.net, task, cause, why);
        self.waiting.take(&self.net, task, cause);
        Ok(place)
    }

    /// Whether the run is finished: nothing runs, no release is left, and releases were dropped at the limit only
    /// where all the starts were made. It takes no memory, and time in proportion to the net.
    pub fn at_rest(&self) -> bool
        ensures { IsTrue result ↔ Complete self.now.net self.now.limit self.now.journal }
    {
        self.position().is_complete()
    }

    /// Each release that is left with how often it can be used, by rising task, and of a task as a source, by its
    /// strong in-edges, and by its weak in-edges in order.
    pub fn ready(&self) -> Result<List<ReadyRelease>, NoMemory>
        ensures { IfOk result (λ list. list ≡ ready_list self.now.net self.now.journal) }
    {
        ready_list(self.alloc, &self.net, self.position().releases())
    }

    /// What a start by a release would find: the parts that wait at the edges which release the task.
    pub fn parts(&self, task: u32, cause: Cause) -> Result<List<Part>, NoMemory>
        requires task { task < length self.now.net.tasks }
        requires cause { CauseInRange self.now.net cause }
        ensures { IfOk result
            (λ parts. parts ≡ waiting_parts self.now.net task cause self.now.journal) }
    {
        self.waiting.parts_of(self.alloc, &self.net, task, cause)
    }

    /// How many rounds of tokens the strong in-edges of a task hold: how often it can be started by them.
    pub fn rounds(&self, task: u32) -> u64
        requires { task < length self.now.net.tasks }
        ensures { result ≡ least
            (map (λ e. given self.now.net e self.now.journal) (strong_in self.now.net task))
            - used task self.now.journal }
    {
        self.position().releases().rounds_left(&self.net, task)
    }

    // The position after the journal.
    fn position(&self) -> Position<'_>
        ensures { result ≡ self.now }
    {
        Position::new(&self.net, self.limit, self.journal.as_slice(), &self.counts)
    }
}

// Puts an entry at the end and gives its place, or changes nothing but the room for entries to come.
fn append(
    journal: &mut Journal,
    open_starts: &mut OpenStarts,
    entry: Entry,
) -> Result<u64, NoMemory>
    requires { CountsOpen journal.old open_starts.old }
    ensures place { IfOk result (λ place. place ≡ length journal.old) }
    ensures appended { OnOk result (journal.new ≡ journal.old ++ entry ∷ []) }
    ensures room { OnOk result (length journal.old < length open_starts.new) }
    ensures err { OnErr result (journal.new ≡ journal.old) }
    ensures opened { CountsOpen journal.old open_starts.new }
    ensures size { length journal.old < 2 ^ 61 }
{
    let place = journal.as_slice().len();
    if place == open_starts.room() {
        open_starts.add_room()?;
    }
    journal.push(entry)?;
    Ok(place as u64)
}
