// Serving a desk.
ghost use Rattle.std.specs.Prelude.{◌≡◌, length};
ghost use Rattle.topology_runs.specs.Teams.{IsReady, watchers_of};
ghost use Rattle.desk_book.specs.Desks.{IsPassOf};
ghost use Rattle.desk_book.specs.Passes.{LooksAgain, kept, seen};
ghost use Rattle.run_desk.specs.Serving.{IsServed, RunsRounds, WasCut};

use desk_book::{Desk, DeskPass, TakeAnswer};
use nested_runs::Recurs;
use span_profile::Watch;
use std::alloc::Global;
use std::sync::Wait;
use std::thread::Threads;
use topology_runs::{Short, Team, run_times};
use worker_seat::EntersEach;

/// What serving a desk came to.
#[derive(Clone, Copy, Debug, PartialEq, Eq)]
pub enum Served {
    /// This ask was taken, and ended with all of its rounds.
    Ran(u64),
    /// This ask was taken, and an allocation failed in one of its rounds: it ended with those that were run to their
    /// end before.
    Cut(u64),
    /// Each ask that waits is of a graph of which a run is under way. This is the oldest that waits.
    Busy(u64),
    /// No ask waits.
    Empty,
}

/// Takes the first ask whose turn has come, has its rounds run by the team, and hands them in. It may wait for the
/// desk, and for the end of its team's runs; no lock is held while a graph runs. It looks at the desk in each call, and
/// its answer is what the pass has then seen. Where an ask was served whole, the team's watchers were told as many
/// spans as its rounds have, and where none was served, nothing. After `Cut` the team runs no further job.
#[tactic(auto, using(crate::proofs::Serving::looks_twice, crate::proofs::Serving::has_served, crate::proofs::Serving::rounds_of))]
pub fn serve<J: Recurs + Drop, X: Watch, E: EntersEach<J, X>, R: Threads + Wait + Sync>(
    rt: &R,
    alloc: Global,
    desk: &Desk<J>,
    pass: &mut DeskPass,
    team: &mut Team<J, X>,
) -> Served
    requires pass { IsPassOf desk.now pass.old }
    requires ready { IsReady team.old }
    ensures pass { IsPassOf desk.now pass.new }
    ensures looks { LooksAgain pass.old pass.new }
    ensures kept { kept pass.new ≡ kept pass.old }
    ensures served { IsServed pass.old pass.new result }
    ensures rounds { RunsRounds J.Job.meaning X.told desk.now.jobs (seen pass.new)
        (watchers_of team.old) (watchers_of team.new) result }
    ensures ready { (WasCut result → ⊥) → IsReady team.new }
    ensures count { length (watchers_of team.new) ≡ length (watchers_of team.old) }
{
    let taken = match desk.take(rt, pass) {
        TakeAnswer::Taken(taken) => taken,
        TakeAnswer::Busy(oldest) => return Served::Busy(oldest),
        TakeAnswer::Empty => return Served::Empty,
    };
    let ask = taken.ask();
    match run_times::<J, X, E, R>(rt, alloc, team, desk.job(ask.graph), ask.times) {
        Ok(runs) => {
            desk.end(rt, pass, taken, runs, true);
            Served::Ran(ask.number)
        }
        Err(Short { runs }) => {
            desk.end(rt, pass, taken, runs, false);
            Served::Cut(ask.number)
        }
    }
}
