// Runs by one thread.
ghost use Rattle.std.specs.Prelude.{◌≡◌, ◌≤◌, ◌+◌, ◌++◌, ◌∷◌, [], ℕ, reverse, IfOk, IfSome, OnOk, Some};
ghost use Rattle.std.specs.Vec.{vec_capacity, vec_len};
ghost use Rattle.std.specs.Arc.{arc_value};
ghost use Rattle.nested_runs.specs.Totals.{all_spans};
ghost use Rattle.run_frame.specs.Legal.{IsKept};
ghost use Rattle.run_frame.specs.NestedRule.{job_of};
ghost use Rattle.table_frames.specs.Frames.{root_job};
ghost use Rattle.semaphore_turns.specs.HeldUnits.{HoldsAll, LacksUnit};
ghost use Rattle.table_frames.specs.inside.Benches.{DiffersInRoom, HasRoomFor, IsBenchOf, spans_told};
ghost use Rattle.table_frames.specs.inside.TriedReleases.{IsTakenIn};
ghost use Rattle.table_runs.specs.Attempts.{IsAttemptIn};
ghost use Rattle.table_runs.specs.Openings.{IsInnerIn};
ghost use Rattle.table_runs.specs.Runs.{AreOf};
ghost use Rattle.table_runs.specs.Spans.{spans_done, spans_made};
ghost use Rattle.span_profile.specs.Watch.{IsToldSince, TellsOn};

use super::level::{Level, Next};
use journal_rules::Span;
use outside_io::NoMemory;
use run_frame::{FrameRun, Job};
use semaphore_turns::{Parking, ReadyTurn, Settled, TakenUnits, TurnYard, wake_turns};
use span_profile::Watch;
use std::alloc::Global;
use std::sync::{Arc, Wait};
use table_runs::{
    Attempt, DoneTurn, DoneTurns, InnerBegun, TableRun, TakenUp, Tried, add_again, span_of,
};

/// Runs a job to its end on the caller's thread, and tells a watcher each span as it ends, also those of the runs
/// inside. What became ready last is started first, and of what one End released that of its first edge. It waits for
/// nobody, but no clause says that it returns. `Err` comes only if an allocation fails, here or in the watcher.
pub fn run_alone<J: Job + Drop, X: Watch, R: Wait>(
    rt: &R,
    alloc: Global,
    job: Arc<J>,
    watcher: &mut X,
) -> Result<FrameRun<J>, NoMemory>
    ensures job { IfOk result (λ run. job_of run ≡ arc_value job) }
    ensures kept { IfOk result (IsKept J.meaning) }
    ensures told { IfOk result
        (λ run. IsToldSince X.told (X.told watcher.old) (all_spans run) watcher.new) }
{
    let _ = watcher.count(); // at most the greatest u64
    let begun = TableRun::begin(alloc, job, None)?;
    if begun.fresh.is_empty() {
        return begun.kept.finish();
    }
    step_all(rt, Level::new(alloc, begun, 0, None, None)?, watcher)
}

// Goes on with the innermost run, until the outermost is over.
fn step_all<J: Job + Drop, X: Watch, R: Wait>(
    rt: &R,
    level: Level<J>,
    watcher: &mut X,
) -> Result<FrameRun<J>, NoMemory>
    ensures run { IfOk result
        (λ run. IsKept J.meaning run × (root_job level.frames ≡ Some (job_of run))) }
    ensures told { IfOk result
        (λ run. TellsOn X.told level.spans (all_spans run) watcher.old watcher.new) }
{
    let mut level = level;
    for _ in rt.forever() {
        match level.advance(rt, watcher)? {
            Next::Level(next) => level = next,
            Next::Run(run) => return Ok(run),
        }
    }
    unreachable!()
}

/// What is left to do in a run by one thread, and what is done and not yet with its keeper.
#[derive(Drop)]
pub(crate) struct Bench<J: Job> {
    // Releases that may be taken up, the newest last.
    pub(crate) ready: Vec<ReadyTurn<J::V>>,
    // Room for what a step makes.
    made: Vec<ReadyTurn<J::V>>,
    pub(crate) done: DoneTurns<J>,
    yard: TurnYard<J::V>,
    // How many runs its run is inside, up to the greatest `u32`.
    pub(crate) depth: u32,
}

impl<J: Job + Drop> Bench<J> {
    /// Of a run that has just begun, with these releases.
    pub(crate) fn new(
        alloc: Global,
        run: &TableRun<J>,
        ready: Vec<ReadyTurn<J::V>>,
        depth: u32,
    ) -> Result<Bench<J>, NoMemory>
        requires { AreOf run.now.table ready.items }
        ensures bench { IfOk result (IsBenchOf J.meaning run.now) }
        ensures no_spans { IfOk result (λ bench. spans_done bench.done ≡ 0) }
    {
        let yard = run.own_yard()?;
        Ok(Bench {
            ready,
            made: Vec::new(alloc),
            done: DoneTurns::new(alloc),
            yard,
            depth,
        })
    }

    // Makes room for one more turn that is done, and for so many releases, both where a step makes them and among those
    // that may be taken up.
    fn make_room(&mut self, releases: usize) -> Result<(), NoMemory>
        ensures same { DiffersInRoom self.old self.new }
        ensures room { OnOk result (HasRoomFor releases self.new) }
    {
        self.done.make_room()?;
        self.made.reserve(releases)?;
        self.ready.reserve(releases)?;
        Ok(())
    }
}

/// Takes the step of a release. Where it isn't parked and no run begins in place of its work, its turn is done then,
/// the watcher is told the span that it ended, if it ended one, and what it made is ready.
pub(crate) fn step<J: Job + Drop, X: Watch>(
    run: &TableRun<J>,
    bench: &mut Bench<J>,
    ready: ReadyTurn<J::V>,
    watcher: &mut X,
) -> Result<Option<InnerBegun<J>>, NoMemory>
    requires ready { ready.table ≡ run.now.table }
    requires bench { IsBenchOf J.meaning run.now bench.old }
    ensures bench { OnOk result (IsBenchOf J.meaning run.now bench.new) }
    ensures inner { IfOk result (λ inner. IfSome inner (IsInnerIn J.meaning run.now)) }
    ensures told { OnOk result (TellsOn X.told (spans_done bench.old.done)
        (spans_done bench.new.done) watcher.old watcher.new) }
{
    let TakenUp { turn, again, woken } = run.take_up(ready)?;
    match run.take_units(turn) {
        TakenUnits::All(turn) => work(run, bench, TakenUp { turn, again, woken }, watcher),
        TakenUnits::Lacks(turn, place) => {
            park(run, bench, TakenUp { turn, again, woken }, place, watcher)
        }
    }
}

// Goes on with a release that has its units, or parks it.
fn park<J: Job + Drop, X: Watch>(
    run: &TableRun<J>,
    bench: &mut Bench<J>,
    taken: TakenUp<J::V>,
    place: usize,
    watcher: &mut X,
) -> Result<Option<InnerBegun<J>>, NoMemory>
    requires taken { IsTakenIn run.now taken }
    requires lacks { LacksUnit (J.meaning.net run.now.job) place taken.turn }
    requires bench { IsBenchOf J.meaning run.now bench.old }
    ensures bench { OnOk result (IsBenchOf J.meaning run.now bench.new) }
    ensures inner { IfOk result (λ inner. IfSome inner (IsInnerIn J.meaning run.now)) }
    ensures told { OnOk result (TellsOn X.told (spans_done bench.old.done)
        (spans_done bench.new.done) watcher.old watcher.new) }
{
    let TakenUp { turn, again, woken } = taken;
    let count = run.count_takes(&turn) + 1;
    bench.make_room(count)?;
    match run.park(&mut bench.yard, turn, place, woken, &mut bench.made)? {
        Parking::Taken(turn) => work(run, bench, TakenUp { turn, again, woken }, watcher),
        Parking::Parked(_) => {
            add_again(&mut bench.made, again);
            add_all(&mut bench.ready, &mut bench.made);
            Ok(None)
        }
    }
}

// Does the work of a release that has its units, and concludes it unless a run has begun in place of the work.
fn work<J: Job + Drop, X: Watch>(
    run: &TableRun<J>,
    bench: &mut Bench<J>,
    taken: TakenUp<J::V>,
    watcher: &mut X,
) -> Result<Option<InnerBegun<J>>, NoMemory>
    requires taken { IsTakenIn run.now taken }
    requires holds { HoldsAll (J.meaning.net run.now.job) taken.turn }
    requires bench { IsBenchOf J.meaning run.now bench.old }
    ensures bench { OnOk result (IsBenchOf J.meaning run.now bench.new) }
    ensures inner { IfOk result (λ inner. IfSome inner (IsInnerIn J.meaning run.now)) }
    ensures told { OnOk result (TellsOn X.told (spans_done bench.old.done)
        (spans_done bench.new.done) watcher.old watcher.new) }
{
    match run.attempt(taken)? {
        Tried::Done(attempt) => {
            conclude(run, bench, attempt, watcher)?;
            Ok(None)
        }
        Tried::Inner(inner) => Ok(Some(inner)),
    }
}

/// Concludes an attempt. Its turn is done then, the watcher is told the span that it ended, if it ended one, and what
/// it made is ready. The spans of a run that was made in place of the work it was told before.
pub(crate) fn conclude<J: Job + Drop, X: Watch>(
    run: &TableRun<J>,
    bench: &mut Bench<J>,
    attempt: Attempt<J>,
    watcher: &mut X,
) -> Result<(), NoMemory>
    requires attempt { IsAttemptIn J.meaning run.now attempt }
    requires bench { IsBenchOf J.meaning run.now bench.old }
    ensures bench { OnOk result (IsBenchOf J.meaning run.now bench.new) }
    ensures told { OnOk result (TellsOn X.told (spans_done bench.old.done + spans_made attempt.inner)
        (spans_done bench.new.done) watcher.old watcher.new) }
{
    let back = run.units_back(&attempt.outcome);
    bench.make_room(attempt.room() + back.len())?;
    let turn = run.conclude(attempt, &mut bench.made);
    let span = span_of(turn.spent.fate(), bench.depth);
    run.gather(&mut bench.done, turn);
    wake_turns(&mut bench.yard, back, &mut bench.made);
    add_all(&mut bench.ready, &mut bench.made);
    tell(watcher, span)
}

// Tells a watcher a span, if there is one.
fn tell<X: Watch>(watcher: &mut X, span: Option<Span>) -> Result<(), NoMemory>
    ensures { OnOk result ((n : ℕ)
        → TellsOn X.told n (n + spans_told span) watcher.old watcher.new) }
{
    match span {
        Some(span) => watcher.span(span),
        None => Ok(()),
    }
}

/// Decides what becomes of parked releases where nothing is ready. No run begins.
pub(crate) fn settle<J: Job + Drop>(run: &TableRun<J>, bench: &mut Bench<J>) -> Result<(), NoMemory>
    requires bench { IsBenchOf J.meaning run.now bench.old }
    ensures bench { OnOk result (IsBenchOf J.meaning run.now bench.new) }
    ensures spans { OnOk result (spans_done bench.new.done ≡ spans_done bench.old.done) }
{
    bench.make_room(1)?;
    match run.settle(&mut bench.yard)? {
        Settled::Waits => {}
        Settled::Goes(ready) => bench.ready.push_reserved(ready),
        Settled::Over(spent) => run.gather(&mut bench.done, DoneTurn { spent, inner: None }),
    }
    Ok(())
}

// Adds releases, of which the first is the newest then.
fn add_all<V: Drop>(ready: &mut Vec<ReadyTurn<V>>, made: &mut Vec<ReadyTurn<V>>)
    requires { vec_len ready.old + vec_len made.old ≤ vec_capacity ready.old }
    ensures ready { ready.new.items ≡ ready.old.items ++ reverse made.old.items }
    ensures made { made.new.items ≡ [] }
{
    while let Some(fresh) = made.pop() {
        ready.push_reserved(fresh);
    }
}
