// Desks.
ghost use Rattle.std.specs.Prelude.{◌≡◌, ◌<◌, ◌≤◌, Some, length, map, slice_get, All, IfOk, IfErr};
ghost use Rattle.std.specs.Arc.{arc_value};
ghost use Rattle.desk_book.specs.Answers.{HasEnded, IsTakeAnswer};
ghost use Rattle.desk_book.specs.Asks.{HasAsked, IsAsked, IsRefused, RefusesAsk};
ghost use Rattle.desk_book.specs.Histories.{asks_of, times_limit};
ghost use Rattle.desk_book.specs.Desks.{IsPassOf};
ghost use Rattle.desk_book.specs.Passes.{LooksAgain, kept, seen};
ghost use Rattle.desk_book.specs.Rounds.{AreRoundsOf};

use crate::desk_error::DeskError;
use crate::outstanding::Outstanding;
use crate::pass::DeskPass;
use crate::state::DeskState;
use crate::take_answer::TakeAnswer;
use crate::taken::Taken;
use keyed_lock::{Held, KeyedLock};
use nested_runs::Recurs;
use outside_io::List;
use run_frame::FrameRun;
use std::marker::Model;
use std::sync::{Arc, Wait};
use tickets::Register;

/// How many rounds an ask may ask for.
pub const MAX_TIMES: u64 = 1_000;

/// A desk of which callers ask for runs of its graphs. Contracts see it as a `DeskKey`.
pub struct Desk<J: Recurs + Drop> {
    pub(crate) register: Register<Outstanding>,
    pub(crate) lock: KeyedLock<DeskState<J>>,
    pub(crate) jobs: Vec<Arc<J>>,
}

impl<J: Recurs + Drop> Drop for Desk<J> {
    fn drop(self) {
        let Desk {
            register,
            lock,
            jobs,
        } = self;
        drop((register, lock, jobs));
    }
}

impl<J: Recurs + Drop> Model for Desk<J> {
    ghost use Rattle.std.specs.Prelude.{◌≡◌, ◌≤◌, All, length, map};
    ghost use Rattle.std.specs.Arc.{arc_value};
    ghost use Rattle.keyed_lock.specs.Locks.{made_with};
    ghost use Rattle.desk_book.specs.States.{DeskKey, key_of};
    ghost use Rattle.desk_book.specs.Desks.{graph_limit};

    ghost Value = { DeskKey J };

    ghost view = { λ d. key_of (made_with d.lock) };

    ghost invariant = { λ d. ((made_with d.lock).book.register ≡ d.register)
        × ((made_with d.lock).jobs ≡ map arc_value d.jobs.items)
        × ((made_with d.lock).book.graphs ≡ length d.jobs.items) × (length d.jobs.items ≤ graph_limit)
        × All J.may_recur (map arc_value d.jobs.items) };
}

impl<J: Recurs + Drop> Desk<J> {
    /// Asks for so many rounds of a graph, and returns the ask's number. It may wait for the desk. The memory for what
    /// is to come of the ask is taken here. After an `Err` nothing was asked.
    pub fn ask<R: Wait>(
        &self,
        rt: &R,
        pass: &mut DeskPass,
        graph: u32,
        times: u64,
    ) -> Result<u64, DeskError>
        requires pass { IsPassOf self.now pass.old }
        ensures pass { IsPassOf self.now pass.new }
        ensures asked { IfOk result
            (IsAsked (length self.now.jobs) graph times pass.old pass.new) }
        ensures refused { IfErr result
            (IsRefused (length self.now.jobs) graph times pass.old pass.new) }
        ensures not_asked { IfErr result (λ error. kept pass.new ≡ kept pass.old) }
    {
        if graph as usize >= self.jobs.len() {
            return Err(DeskError::NoSuchGraph(graph));
        }
        if times > MAX_TIMES {
            return Err(DeskError::TooOften(times));
        }
        self.ask_there(rt, pass, graph, times)
    }

    // Asks for rounds of a graph that is there.
    fn ask_there<R: Wait>(
        &self,
        rt: &R,
        pass: &mut DeskPass,
        graph: u32,
        times: u64,
    ) -> Result<u64, DeskError>
        requires pass { IsPassOf self.now pass.old }
        requires graph { graph < length self.now.jobs }
        requires times { times ≤ times_limit }
        ensures pass { IsPassOf self.now pass.new }
        ensures looks { LooksAgain pass.old pass.new }
        ensures asked { IfOk result
            (HasAsked pass.old.caller graph times (seen pass.old) (seen pass.new)) }
        ensures refused { IfErr result (RefusesAsk (length (asks_of (seen pass.new)))) }
        ensures not_asked { IfErr result (λ error. kept pass.new ≡ kept pass.old) }
    {
        let Some(ticket) = pass.ticket.take() else {
            unreachable!()
        };
        let Held {
            value: mut state,
            pass: lock_pass,
        } = self.lock.take(rt);
        let (ticket, answer) = state.ask_for(&self.register, ticket, pass.caller, graph, times);
        pass.ticket = Some(ticket);
        self.lock.put(Held {
            value: state,
            pass: lock_pass,
        });
        answer
    }

    /// Takes the first ask that may be taken: asks of graphs of which another was taken and has not ended are passed
    /// over. It may wait for the desk, and takes no memory. It looks at the desk in each call, and its answer is what
    /// the pass has then seen.
    pub fn take<R: Wait>(&self, rt: &R, pass: &mut DeskPass) -> TakeAnswer
        requires pass { IsPassOf self.now pass.old }
        ensures pass { IsPassOf self.now pass.new }
        ensures looks { LooksAgain pass.old pass.new }
        ensures kept { kept pass.new ≡ kept pass.old }
        ensures answer { IsTakeAnswer self.now.register (length self.now.jobs) (seen pass.old)
            (seen pass.new) result }
    {
        let Some(ticket) = pass.ticket.take() else {
            unreachable!()
        };
        let Held {
            value: mut state,
            pass: lock_pass,
        } = self.lock.take(rt);
        let (ticket, answer) = state.take_for(&self.register, ticket, pass.caller);
        pass.ticket = Some(ticket);
        self.lock.put(Held {
            value: state,
            pass: lock_pass,
        });
        answer
    }

    /// Ends an ask that was taken with its rounds: all of them (`whole`), or the first ones where they were cut. They
    /// are kept with the ask. It may wait for the desk, and takes no memory.
    pub fn end<R: Wait>(
        &self,
        rt: &R,
        pass: &mut DeskPass,
        taken: Taken,
        runs: List<FrameRun<J>>,
        whole: bool,
    )
        requires pass { IsPassOf self.now pass.old }
        requires taken { taken.register ≡ self.now.register }
        requires rounds { AreRoundsOf J.Job.meaning self.now.jobs taken.ask whole runs }
        ensures pass { IsPassOf self.now pass.new }
        ensures looks { LooksAgain pass.old pass.new }
        ensures kept { kept pass.new ≡ kept pass.old }
        ensures ended { HasEnded (seen pass.new) taken whole }
    {
        let Some(ticket) = pass.ticket.take() else {
            unreachable!()
        };
        let Held {
            value: mut state,
            pass: lock_pass,
        } = self.lock.take(rt);
        let ticket = state.end_for(&self.register, ticket, pass.caller, taken, runs, whole);
        pass.ticket = Some(ticket);
        self.lock.put(Held {
            value: state,
            pass: lock_pass,
        });
    }

    /// The job of a graph.
    pub fn job(&self, graph: u32) -> &Arc<J>
        requires { graph < length self.now.jobs }
        ensures job { slice_get self.now.jobs graph ≡ Some (arc_value result.now) }
        ensures recurs { J.may_recur (arc_value result.now) }
    {
        &self.jobs[graph as usize]
    }
}
