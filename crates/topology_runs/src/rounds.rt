// Runs of a job, round after round.
ghost use Rattle.std.specs.Prelude.{◌≡◌, ◌≢◌, ◌⊎◌, [], false, true, length, All, IfOk, IfErr, IsTrue, OnOk, OnErr};
ghost use Rattle.std.specs.Arc.{arc_value};
ghost use Rattle.run_frame.specs.Legal.{IsKept};
ghost use Rattle.run_frame.specs.NestedRule.{job_of};
ghost use Rattle.nested_runs.specs.Rounds.{AreAllRounds, AreFirstRounds, LastWasCut, last_run, times};
ghost use Rattle.topology_runs.specs.Teams.{IsReady, watchers_of};
ghost use Rattle.topology_runs.specs.Told.{AreToldRounds};
ghost use Rattle.topology_runs.specs.inside.Nexts.{FollowsLast, IsLastFine};

use super::team::Team;
use super::until::{Never, Until};
use nested_runs::Recurs;
use outside_io::{List, NoMemory};
use run_frame::FrameRun;
use span_profile::Watch;
use std::alloc::Global;
use std::sync::{Arc, Wait};
use std::thread::Threads;
use worker_seat::EntersEach;

/// An allocation failed; the rounds that were run to their end before.
#[derive(Drop)]
pub struct Short<J: Recurs> {
    pub runs: List<FrameRun<J>>,
}

/// Runs a job so many times, unless something is cut short in a run. The watchers, if there are any, are together told
/// as many spans as the rounds have, with the runs inside them. `Err` comes only if an allocation fails; the team then
/// runs no further job.
pub fn run_times<J: Recurs + Drop, X: Watch, E: EntersEach<J, X>, R: Threads + Wait + Sync>(
    rt: &R,
    alloc: Global,
    team: &mut Team<J, X>,
    job: &Arc<J>,
    count: u64,
) -> Result<List<FrameRun<J>>, Short<J>>
    requires ready { IsReady team.old }
    requires recurs { J.may_recur (arc_value job.now) }
    ensures rounds { IfOk result (AreAllRounds J.Job.meaning (arc_value job.now) (times count)) }
    ensures short { IfErr result
        (λ short. AreFirstRounds J.Job.meaning (arc_value job.now) (times count) short.runs) }
    ensures ready { OnOk result (IsReady team.new) }
    ensures watchers { IfOk result (λ runs. watchers_of team.old ≢ []
        → AreToldRounds X.told runs (watchers_of team.old) (watchers_of team.new)) }
    ensures count { length (watchers_of team.new) ≡ length (watchers_of team.old) }
{
    run_until::<J, X, Never, E, R>(rt, alloc, team, job, &Never, count)
}

/// Runs a job until a test of the rounds is met, at most so many times, unless something is cut short in a run. The
/// watchers, if there are any, are together told as many spans as the rounds have, with the runs inside them. `Err`
/// comes only if an allocation fails; the team then runs no further job.
pub fn run_until<
    J: Recurs + Drop,
    X: Watch,
    U: Until<J>,
    E: EntersEach<J, X>,
    R: Threads + Wait + Sync,
>(
    rt: &R,
    alloc: Global,
    team: &mut Team<J, X>,
    job: &Arc<J>,
    until: &U,
    most: u64,
) -> Result<List<FrameRun<J>>, Short<J>>
    requires ready { IsReady team.old }
    requires recurs { J.may_recur (arc_value job.now) }
    ensures rounds { IfOk result (AreAllRounds J.Job.meaning (arc_value job.now)
        (record { most = most; ends = U.ends until.now })) }
    ensures short { IfErr result
        (λ short. AreFirstRounds J.Job.meaning (arc_value job.now)
        (record { most = most; ends = U.ends until.now }) short.runs) }
    ensures ready { OnOk result (IsReady team.new) }
    ensures watchers { IfOk result (λ runs. watchers_of team.old ≢ []
        → AreToldRounds X.told runs (watchers_of team.old) (watchers_of team.new)) }
    ensures count { length (watchers_of team.new) ≡ length (watchers_of team.old) }
{
    let mut runs = Vec::new(alloc);
    match add_rounds::<J, X, U, E, R>(rt, alloc, team, job, until, most, &mut runs) {
        Ok(()) => Ok(List::from_vec(runs)),
        Err(NoMemory) => Err(Short {
            runs: List::from_vec(runs),
        }),
    }
}

// Runs the rounds, and puts each where there is room for it before it is run.
fn add_rounds<
    J: Recurs + Drop,
    X: Watch,
    U: Until<J>,
    E: EntersEach<J, X>,
    R: Threads + Wait + Sync,
>(
    rt: &R,
    alloc: Global,
    team: &mut Team<J, X>,
    first: &Arc<J>,
    until: &U,
    most: u64,
    runs: &mut Vec<FrameRun<J>>,
) -> Result<(), NoMemory>
    requires none { runs.old.items ≡ [] }
    requires ready { IsReady team.old }
    requires recurs { J.may_recur (arc_value first.now) }
    ensures ok { OnOk result (AreAllRounds J.Job.meaning (arc_value first.now)
        (record { most = most; ends = U.ends until.now }) runs.new.items) }
    ensures err { OnErr result (AreFirstRounds J.Job.meaning (arc_value first.now)
        (record { most = most; ends = U.ends until.now }) runs.new.items) }
    ensures ready { OnOk result (IsReady team.new) }
    ensures watchers { OnOk result (watchers_of team.old ≢ []
        → AreToldRounds X.told runs.new.items (watchers_of team.old) (watchers_of team.new)) }
    ensures count { length (watchers_of team.new) ≡ length (watchers_of team.old) }
{
    for _ in 0..most {
        if is_over(until, runs.as_slice()) {
            return Ok(());
        }
        runs.reserve(1)?;
        let job = next_job(alloc, first, runs.as_slice())?;
        let run = team.run::<E, R>(rt, job)?;
        runs.push_reserved(run);
    }
    Ok(())
}

// The job of the round after these.
fn next_job<J: Recurs + Drop>(
    alloc: Global,
    first: &Arc<J>,
    runs: &[FrameRun<J>],
) -> Result<Arc<J>, NoMemory>
    requires kept { All (IsKept J.Job.meaning) runs.now }
    requires recurs { All (λ run. J.may_recur (job_of run)) runs.now }
    requires first { J.may_recur (arc_value first.now) }
    ensures follows { IfOk result
        (λ job. FollowsLast J.Job.meaning (arc_value first.now) (last_run runs.now) (arc_value job)) }
    ensures recurs { IfOk result (λ job. J.may_recur (arc_value job)) }
{
    match runs.last() {
        Some(run) => Ok(Arc::new(alloc, run.job.next(alloc, run)?)?),
        None => Ok(Arc::try_clone(first)?),
    }
}

// Whether there is no round after these, since they meet the test or something was cut short in the last.
fn is_over<J: Recurs, U: Until<J>>(until: &U, runs: &[FrameRun<J>]) -> bool
    requires { All (IsKept J.Job.meaning) runs.now }
    ensures over { IsTrue result → (U.ends until.now runs.now ≡ true) ⊎ LastWasCut runs.now }
    ensures goes_on { result ≡ false → (U.ends until.now runs.now ≡ false) × IsLastFine runs.now }
{
    until.is_met(runs) || was_cut(runs)
}

// Whether something was cut short in the last of these runs.
fn was_cut<J: Recurs>(runs: &[FrameRun<J>]) -> bool
    ensures cut { IsTrue result → LastWasCut runs.now }
    ensures fine { result ≡ false → IsLastFine runs.now }
{
    match runs.last() {
        Some(run) => !run.is_fine(),
        None => false,
    }
}
