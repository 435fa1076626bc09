// Rounds by so many workers.
ghost use Rattle.std.specs.Prelude.{◌≡◌, ◌≢◌, ◌≤◌, [], false, length, IsTrue};
ghost use Rattle.std.specs.Arc.{arc_value};
ghost use Rattle.command_line.specs.Rounds.{asked_rounds};
ghost use Rattle.command_line.specs.declared.numbers.TheConstants.{GREATEST_WORKERS};
ghost use Rattle.nested_runs.specs.Rounds.{AreAllRounds, AreFirstRounds};
ghost use Rattle.text_tasks.specs.JobMeaning.{text_job, IsGraphJob};
ghost use Rattle.topology_runs.specs.Teams.{IsReady, watchers_of};
ghost use Rattle.topology_runs.specs.Told.{AreToldRounds};
ghost use Rattle.worker_seat.specs.Crews.{IsEntered, MayEnter};
ghost use Rattle.flow_run.specs.RoundTexts.{last_has, round_rule};
ghost use Rattle.flow_run.specs.Watched.{HaveSeen};

use super::fronts::{put_front, take_front};
use command_line::{GREATEST_TIMES, Rounds};
use outside_io::{Back, List};
use run_frame::FrameRun;
use span_profile::Watch;
use std::alloc::Global;
use std::sync::{Arc, Wait};
use std::thread::{Threads, for_each_mut};
use text_tasks::{TextJob, feedback_has};
use topology_runs::{Short, Team, Until, run_times, run_until};
use worker_seat::{Crew, EntersEach, WorkerSeat};

/// Rounds that were run to their end.
#[derive(Drop)]
pub(crate) struct RoundsRun {
    pub runs: List<FrameRun<TextJob>>,
    /// Whether they are all that were asked for. If not, an allocation failed.
    pub whole: bool,
}

/// Runs the rounds of a job that are asked for, by so many workers, or by as many as there are watchers,
/// where these are fewer. A single worker is the caller's thread, which needs no lock; several are a crew, whose seats
/// are entered by threads. Each worker tells its watcher, the first one the first, and in the end they are where they
/// were.
#[tactic(auto, using(crate::proofs::RoundLemmas::no_round, crate::proofs::WatchLemmas::unseen_rounds))]
pub(crate) fn run_rounds<R: Threads + Wait + Sync>(
    rt: &R,
    alloc: Global,
    workers: u32,
    rounds: Rounds<'_>,
    job: TextJob,
    watchers: &mut Vec<Box<dyn Watch + Send>>,
) -> RoundsRun
    requires workers { workers ≤ GREATEST_WORKERS }
    requires graph { IsGraphJob job }
    ensures first { AreFirstRounds text_job job (round_rule (asked_rounds rounds.entry)) result.runs }
    ensures all { IsTrue result.whole
        → AreAllRounds text_job job (round_rule (asked_rounds rounds.entry)) result.runs }
    ensures watchers { HaveSeen told workers (IsTrue result.whole) result.runs
        watchers.old.items watchers.new.items }
{
    let seats = watchers.len().min(workers as usize);
    let Ok(job) = Arc::new(alloc, job) else {
        return no_rounds(alloc);
    };
    let Ok(front) = Vec::with_capacity(alloc, seats) else {
        return no_rounds(alloc);
    };
    let Ok(back) = Vec::with_capacity(alloc, seats) else {
        return no_rounds(alloc);
    };
    match Team::new(alloc, take_front(watchers, seats, front)) {
        Ok(mut team) => {
            let ran = rounds_by(rt, alloc, &mut team, &job, rounds);
            put_front(watchers, team.into_watchers(back));
            ran
        }
        Err(Back { item }) => {
            put_front(watchers, item);
            no_rounds(alloc)
        }
    }
}

// No round, since an allocation failed.
fn no_rounds(alloc: Global) -> RoundsRun
    ensures { result ≡ record { runs = []; whole = false } }
{
    RoundsRun {
        runs: List::new(alloc),
        whole: false,
    }
}

// Runs the rounds by a team.
fn rounds_by<R: Threads + Wait + Sync>(
    rt: &R,
    alloc: Global,
    team: &mut Team<TextJob, Box<dyn Watch + Send>>,
    job: &Arc<TextJob>,
    asked: Rounds<'_>,
) -> RoundsRun
    requires ready { IsReady team.old }
    requires graph { IsGraphJob (arc_value job.now) }
    ensures first { AreFirstRounds text_job (arc_value job.now) (round_rule (asked_rounds asked.entry)) result.runs }
    ensures all { IsTrue result.whole
        → AreAllRounds text_job (arc_value job.now) (round_rule (asked_rounds asked.entry)) result.runs }
    ensures watchers { IsTrue result.whole → watchers_of team.old ≢ []
        → AreToldRounds told result.runs (watchers_of team.old) (watchers_of team.new) }
    ensures count { length (watchers_of team.new) ≡ length (watchers_of team.old) }
{
    let ran = match asked {
        Rounds::Once => run_times::<TextJob, _, ByThreads, R>(rt, alloc, team, job, 1),
        Rounds::Times(count) => run_times::<TextJob, _, ByThreads, R>(rt, alloc, team, job, count),
        Rounds::Until(word) => {
            let word = word.as_bytes();
            run_until::<TextJob, _, HandsOn<'_>, ByThreads, R>(
                rt,
                alloc,
                team,
                job,
                &HandsOn { word },
                GREATEST_TIMES,
            )
        }
    };
    match ran {
        Ok(runs) => RoundsRun { runs, whole: true },
        Err(Short { runs }) => RoundsRun { runs, whole: false },
    }
}

// The last round has handed on a text with this word in one of its lines.
#[derive(Drop)]
struct HandsOn<'w> {
    word: &'w [u8],
}

impl<'w> Until<TextJob> for HandsOn<'w> {
    ghost ends = { λ until runs. last_has until.word.now runs };

    fn is_met(&self, runs: &[FrameRun<TextJob>]) -> bool {
        match runs.last() {
            Some(run) => feedback_has(run, self.word),
            None => false,
        }
    }
}

// The threads of the seats.
struct ByThreads;

impl EntersEach<TextJob, Box<dyn Watch + Send>> for ByThreads {
    fn enter_each<R: Threads + Wait + Sync>(
        rt: &R,
        crew: &Crew<TextJob>,
        seats: &mut [WorkerSeat<TextJob, Box<dyn Watch + Send>>],
    ) {
        let threads = seats.len().max(1);
        for_each_mut(
            rt,
            seats,
            threads,
            &|_, seat: &mut WorkerSeat<TextJob, Box<dyn Watch + Send>>|
                requires { MayEnter crew.now seat.old }
                ensures { IsEntered told seat.old seat.new }
            { crew.work_at(rt, seat) },
        );
    }
}
