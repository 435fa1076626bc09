// What is under the lock of a desk, and its three changes.
ghost use Rattle.std.specs.Prelude.{◌≡◌, ◌+◌, ◌<◌, ◌≤◌, ◌++◌, ◌∷◌, [], ℕ, true, false, length, map, IfOk, IfErr, IfNone, IfSome, OnOk, OnErr, Some, slice_get, slice_set};
ghost use Rattle.std.specs.Arc.{arc_value};
ghost use Rattle.desk_book.specs.declared.entry.Ask.{Ask as AskOf};
ghost use Rattle.desk_book.specs.Histories.{AskRule, IsFirstUnended, IsOver, NoneMayBeTaken, asks_by, asks_of, times_limit, turn_of};
ghost use Rattle.desk_book.specs.Books.{NothingOut, book_history, caller_of, with_items};
ghost use Rattle.desk_book.specs.Taking.{HasSeen, IsFreshPass, IsPassFor, entries_seen};
ghost use Rattle.desk_book.specs.Changes.{EndsTaken, TakesFirst};
ghost use Rattle.desk_book.specs.Asks.{HasAsked, RefusesAsk, new_ask};
ghost use Rattle.desk_book.specs.Answers.{HasEnded, IsTakeAnswer};
ghost use Rattle.desk_book.specs.Passes.{GoesOn, IsTicketOf, seen};
ghost use Rattle.desk_book.specs.Rounds.{AreRoundsOf, journals_of};
ghost use Rattle.desk_book.specs.Finishes.{IsDeskRun};
ghost use Rattle.desk_book.specs.Desks.{graph_limit};
ghost use Rattle.desk_book.specs.States.{desk_key, desk_locked, key_of, with_ask, with_book, with_rounds};

use crate::book::DeskBook;
use crate::desk_error::DeskError;
use crate::desk_run::DeskRun;
use crate::entry::Ask;
use crate::opening::Opening;
use crate::outstanding::Outstanding;
use crate::pass::DeskPass;
use crate::take_answer::TakeAnswer;
use crate::taken::Taken;
use keyed_lock::Keyed;
use nested_runs::Recurs;
use outside_io::{List, NoMemory};
use run_frame::FrameRun;
use std::alloc::Global;
use std::marker::Model;
use std::snapshot::Snapshot;
use std::sync::Arc;
use tickets::{Register, Ticket};

/// How many asks a desk takes.
pub const MAX_ASKS: u64 = 10_000;

/// A desk between two calls. Contracts see it as a `DeskLocked`.
#[derive(Drop)]
pub struct DeskState<J: Recurs + Drop> {
    alloc: Global,
    book: DeskBook,
    // The rounds of each ask, by its number. It has none before it has ended.
    runs: Vec<List<FrameRun<J>>>,
    jobs: Snapshot<Vec<Arc<J>>>,
}

impl<J: Recurs + Drop> Model for DeskState<J> {
    ghost use Rattle.std.specs.Prelude.{length, map};
    ghost use Rattle.std.specs.Arc.{arc_value};
    ghost use Rattle.desk_book.specs.Rounds.{journals_of};
    ghost use Rattle.desk_book.specs.States.{DeskLocked, desk_locked};

    ghost Value = { DeskLocked J };

    ghost use Rattle.desk_book.specs.inside.KeepsRuns.{KeepsRuns};

    ghost view = { λ s. desk_locked s.book (map arc_value s.jobs.value.items)
        (map journals_of s.runs.items) };

    ghost invariant = { λ s. KeepsRuns J.Job.meaning s.book (map arc_value s.jobs.value.items)
        s.runs.items };
}

impl<J: Recurs + Drop> Keyed for DeskState<J> {
    ghost use Rattle.desk_book.specs.States.{DeskKey, key_of};

    ghost Key = { DeskKey J };

    ghost key = { key_of };
}

impl<J: Recurs + Drop> DeskState<J> {
    /// Appends an ask. The memory for what is to come of it is taken here. After an `Err` the desk is as it was.
    pub fn ask_in(&mut self, ask: Ask) -> Result<(), NoMemory>
        requires ask { AskRule self.old.book.graphs self.old.book.callers self.old.book.history ask }
        requires pass { NothingOut (caller_of ask.caller) self.old.book.items }
        ensures ok { OnOk result (self.new ≡ with_ask self.old ask) }
        ensures err { OnErr result (self.new ≡ self.old) }
    {
        self.runs.reserve(1)?;
        self.book.ask_in(ask)?;
        self.runs.push_reserved(List::new(self.alloc));
        Ok(())
    }

    /// Takes the first ask that may be taken: asks of busy graphs are passed over. `None` exactly where there is none.
    /// It takes no memory.
    pub fn take_in(&mut self, register: &Register<Outstanding>) -> Option<Taken>
        requires register { self.old.book.register ≡ register.now }
        ensures book { self.new ≡ with_book self.old self.new.book }
        ensures items { length self.old.book.items ≤ length self.new.book.items }
        ensures passes { (c : ℕ) → NothingOut (caller_of c) self.old.book.items
            → NothingOut (caller_of c) self.new.book.items }
        ensures taken { IfSome result (TakesFirst self.old.book self.new.book) }
        ensures none { IfNone result ((self.new ≡ self.old)
            × NoneMayBeTaken self.old.book.history) }
    {
        self.book.take_in(register)
    }

    /// Ends an ask that was taken with its rounds: all of them, or the first ones where they were cut. It takes no
    /// memory.
    pub fn end_in(
        &mut self,
        register: &Register<Outstanding>,
        taken: Taken,
        runs: List<FrameRun<J>>,
        whole: bool,
    )
        requires register { self.old.book.register ≡ register.now }
        requires taken { taken.register ≡ register.now }
        requires rounds { AreRoundsOf J.Job.meaning self.old.jobs taken.ask whole runs }
        ensures ended { EndsTaken self.old.book taken whole self.new.book }
        ensures rounds { self.new
            ≡ with_rounds self.old self.new.book taken.ask.number (journals_of runs) }
    {
        let number = taken.ask().number;
        self.book.end_in(register, taken, whole);
        set_runs(&mut self.runs, number, runs);
    }
}

impl<J: Recurs + Drop> DeskState<J> {
    /// Takes a pass's ticket back, and learns that what it has seen is a prefix of the history, with all asks of its
    /// caller.
    pub(crate) fn close_pass(
        &mut self,
        register: &Register<Outstanding>,
        ticket: Ticket<Outstanding>,
        caller: u32,
    )
        requires register { self.old.book.register ≡ register.now }
        requires ticket { ticket.register ≡ register.now }
        requires caller { IsPassFor caller ticket.item }
        ensures desk { self.new ≡ with_book self.old self.new.book }
        ensures book { self.new.book ≡ with_items self.old.book self.new.book.items }
        ensures none { NothingOut (caller_of caller) self.new.book.items }
        ensures seen { HasSeen self.old.book.history caller (entries_seen ticket.item) }
        ensures number { ticket.number < length self.new.book.items }
    {
        self.book.close_pass(register, ticket, caller);
    }

    /// A ticket for the pass of a caller, which has seen all entries.
    pub(crate) fn open_pass(
        &mut self,
        register: &Register<Outstanding>,
        caller: u32,
    ) -> Ticket<Outstanding>
        requires register { self.old.book.register ≡ register.now }
        requires none { NothingOut (caller_of caller) self.old.book.items }
        ensures desk { self.new ≡ with_book self.old self.new.book }
        ensures book { self.new.book ≡ with_items self.old.book self.new.book.items }
        ensures ticket { IsFreshPass self.old.book caller result }
        ensures others { (c : ℕ) → NothingOut (caller_of c) self.old.book.items
            → (c ≡ caller → ⊥) → NothingOut (caller_of c) self.new.book.items }
    {
        self.book.open_pass(register, caller)
    }

    /// The pass of a caller looks at the desk: its next ticket, which has seen all entries.
    pub(crate) fn look(
        &mut self,
        register: &Register<Outstanding>,
        ticket: Ticket<Outstanding>,
        caller: u32,
    ) -> Ticket<Outstanding>
        requires register { self.old.book.register ≡ register.now }
        requires ticket { (ticket.register ≡ register.now) × IsPassFor caller ticket.item }
        ensures desk { self.new ≡ with_book self.old self.new.book }
        ensures book { self.new.book ≡ with_items self.old.book self.new.book.items }
        ensures ticket { (result.register ≡ register.now) × IsPassFor caller result.item }
        ensures later { ticket.number < result.number }
        ensures longer { GoesOn (entries_seen ticket.item) (entries_seen result.item) }
        ensures all { entries_seen result.item ≡ self.new.book.history }
        ensures kept { asks_by caller (entries_seen result.item)
            ≡ asks_by caller (entries_seen ticket.item) }
    {
        self.close_pass(register, ticket, caller);
        self.open_pass(register, caller)
    }

    // Appends an ask of a caller, unless the desk is full.
    fn add(&mut self, caller: u32, graph: u32, times: u64) -> Result<u64, DeskError>
        requires pass { NothingOut (caller_of caller) self.old.book.items }
        requires caller { caller < self.old.book.callers }
        requires graph { graph < self.old.book.graphs }
        requires times { times ≤ times_limit }
        ensures number { IfOk result (λ n. n ≡ length (asks_of self.old.book.history)) }
        ensures ok { IfOk result (λ n. self.new ≡ with_ask self.old (new_ask n caller graph times)) }
        ensures err { OnErr result (self.new ≡ self.old) }
        ensures refused { IfErr result
            (RefusesAsk (length (asks_of self.old.book.history))) }
    {
        let number = self.book.ask_count();
        if number == MAX_ASKS {
            return Err(DeskError::Full(number));
        }
        let ask = Ask {
            number,
            caller,
            graph,
            times,
        };
        match self.ask_in(ask) {
            Ok(()) => Ok(number),
            Err(NoMemory) => Err(DeskError::NoMemory),
        }
    }

    /// Appends an ask for the caller with this ticket, and gives its next ticket, which has seen all entries.
    pub(crate) fn ask_for(
        &mut self,
        register: &Register<Outstanding>,
        ticket: Ticket<Outstanding>,
        caller: u32,
        graph: u32,
        times: u64,
    ) -> (Ticket<Outstanding>, Result<u64, DeskError>)
        requires register { self.old.book.register ≡ register.now }
        requires ticket { (ticket.register ≡ register.now) × IsPassFor caller ticket.item }
        requires caller { caller < self.old.book.callers }
        requires graph { graph < self.old.book.graphs }
        requires times { times ≤ times_limit }
        ensures key { key_of self.new ≡ key_of self.old }
        ensures ticket { (result.0.register ≡ register.now) × IsPassFor caller result.0.item }
        ensures later { ticket.number < result.0.number }
        ensures longer { GoesOn (entries_seen ticket.item) (entries_seen result.0.item) }
        ensures asked { IfOk result.1
            (HasAsked caller graph times (entries_seen ticket.item) (entries_seen result.0.item)) }
        ensures not_asked { OnErr result.1 (asks_by caller (entries_seen result.0.item)
            ≡ asks_by caller (entries_seen ticket.item)) }
        ensures refused { IfErr result.1
            (RefusesAsk (length (asks_of (entries_seen result.0.item)))) }
    {
        self.close_pass(register, ticket, caller);
        let answer = self.add(caller, graph, times);
        (self.open_pass(register, caller), answer)
    }

    /// Takes an ask for the caller with this ticket, and gives its next ticket, which has seen all entries.
    pub(crate) fn take_for(
        &mut self,
        register: &Register<Outstanding>,
        ticket: Ticket<Outstanding>,
        caller: u32,
    ) -> (Ticket<Outstanding>, TakeAnswer)
        requires register { self.old.book.register ≡ register.now }
        requires ticket { (ticket.register ≡ register.now) × IsPassFor caller ticket.item }
        ensures key { key_of self.new ≡ key_of self.old }
        ensures ticket { (result.0.register ≡ register.now) × IsPassFor caller result.0.item }
        ensures later { ticket.number < result.0.number }
        ensures longer { GoesOn (entries_seen ticket.item) (entries_seen result.0.item) }
        ensures kept { asks_by caller (entries_seen result.0.item)
            ≡ asks_by caller (entries_seen ticket.item) }
        ensures answer { IsTakeAnswer register.now self.old.book.graphs (entries_seen ticket.item)
            (entries_seen result.0.item) result.1 }
    {
        self.close_pass(register, ticket, caller);
        let answer = self.take_any(register);
        (self.open_pass(register, caller), answer)
    }

    // Takes the first ask that may be taken, or says which are passed over.
    #[tactic(auto, using(crate::proofs::PassedOver::passed_over, crate::proofs::Seeing::took_asks))]
    fn take_any(&mut self, register: &Register<Outstanding>) -> TakeAnswer
        requires register { self.old.book.register ≡ register.now }
        ensures key { key_of self.new ≡ key_of self.old }
        ensures longer { GoesOn self.old.book.history self.new.book.history }
        ensures asks { asks_of self.new.book.history ≡ asks_of self.old.book.history }
        ensures items { length self.old.book.items ≤ length self.new.book.items }
        ensures passes { (c : ℕ) → NothingOut (caller_of c) self.old.book.items
            → NothingOut (caller_of c) self.new.book.items }
        ensures answer { IsTakeAnswer register.now self.old.book.graphs self.old.book.history
            self.new.book.history result }
    {
        if let Some(taken) = self.take_in(register) {
            return TakeAnswer::Taken(taken);
        }
        let Some(number) = self.book.oldest_waiting() else {
            return TakeAnswer::Empty;
        };
        TakeAnswer::Busy(number)
    }

    /// Ends an ask for the caller with this ticket, and gives its next ticket, which has seen all entries.
    pub(crate) fn end_for(
        &mut self,
        register: &Register<Outstanding>,
        ticket: Ticket<Outstanding>,
        caller: u32,
        taken: Taken,
        runs: List<FrameRun<J>>,
        whole: bool,
    ) -> Ticket<Outstanding>
        requires register { self.old.book.register ≡ register.now }
        requires ticket { (ticket.register ≡ register.now) × IsPassFor caller ticket.item }
        requires taken { taken.register ≡ register.now }
        requires rounds { AreRoundsOf J.Job.meaning self.old.jobs taken.ask whole runs }
        ensures key { key_of self.new ≡ key_of self.old }
        ensures ticket { (result.register ≡ register.now) × IsPassFor caller result.item }
        ensures later { ticket.number < result.number }
        ensures longer { GoesOn (entries_seen ticket.item) (entries_seen result.item) }
        ensures kept { asks_by caller (entries_seen result.item)
            ≡ asks_by caller (entries_seen ticket.item) }
        ensures ended { HasEnded (entries_seen result.item) taken whole }
        ensures rounds { self.new.rounds
            ≡ slice_set self.old.rounds taken.ask.number (journals_of runs) }
    {
        self.end_in(register, taken, runs, whole);
        self.look(register, ticket, caller)
    }
}

impl<J: Recurs + Drop> DeskState<J> {
    /// A desk where nobody has asked, for so many callers, none of which has a pass.
    pub fn new(alloc: Global, jobs: &Vec<Arc<J>>, callers: u32) -> Result<Opening<J>, NoMemory>
        requires { length jobs.now.items ≤ graph_limit }
        ensures key { IfOk result
            (λ o. key_of o.state ≡ desk_key o.register callers (map arc_value jobs.now.items)) }
        ensures items { IfOk result (λ o. o.state.book.items ≡ []) }
    {
        let (register, book) = Register::new(alloc)?;
        let book = DeskBook::new(alloc, jobs.len() as u32, callers, book)?;
        let state = DeskState {
            alloc,
            book,
            runs: Vec::new(alloc),
            jobs: Snapshot::of(jobs),
        };
        Ok(Opening { register, state })
    }

    /// The first ask that has not ended.
    pub fn first_unended(&self) -> Option<u64>
        ensures some { IfSome result (IsFirstUnended self.now.book.history) }
        ensures none { IfNone result ((n : ℕ) → n < length (asks_of self.now.book.history)
            → IsOver (turn_of self.now.book.history n)) }
    {
        self.book.first_unended()
    }

    /// What the desk came to, where each ask ended. It takes no memory.
    pub fn into_run(self) -> DeskRun<J>
        requires { (n : ℕ) → n < length (asks_of self.book.history)
            → IsOver (turn_of self.book.history n) }
        ensures run { IsDeskRun J.Job.meaning self.book.callers self.jobs result }
        ensures history { result.history ≡ self.book.history }
        ensures callers { (n : ℕ) (ask : AskOf) → slice_get (asks_of result.history) n ≡ Some ask
            → ask.caller < self.book.callers }
        ensures rounds { map journals_of result.runs ≡ self.rounds }
    {
        let DeskState { book, runs, .. } = self;
        DeskRun {
            history: List::from_vec(book.into_history()),
            runs: List::from_vec(runs),
        }
    }

    /// Takes the ticket of a pass back for good.
    pub(crate) fn close(&mut self, register: &Register<Outstanding>, pass: DeskPass)
        requires register { self.old.book.register ≡ register.now }
        requires pass { IsTicketOf register.now pass.ticket }
        ensures desk { self.new ≡ with_book self.old self.new.book }
        ensures book { self.new.book ≡ with_items self.old.book self.new.book.items }
        ensures seen { HasSeen self.old.book.history pass.caller (seen pass) }
    {
        let DeskPass { caller, ticket } = pass;
        let Some(ticket) = ticket else { unreachable!() };
        self.close_pass(register, ticket, caller);
    }
}

// Puts the rounds of an ask at its number.
fn set_runs<J: Recurs + Drop>(all: &mut Vec<List<FrameRun<J>>>, n: u64, runs: List<FrameRun<J>>)
    ensures { all.new.items ≡ slice_set all.old.items n runs }
{
    if let Some(at) = all.get_mut(n as usize) {
        *at = runs;
    }
}
