// Runs inside each other, by one thread.
ghost use Rattle.std.specs.Prelude.{◌≡◌, ◌+◌, ◌∷◌, IfNone, IfOk, IfSome, IsTrue, OnOk};
ghost use Rattle.join_tables.specs.Keeping.{TellsRun, entries_told};
ghost use Rattle.run_frame.specs.Legal.{IsKept};
ghost use Rattle.run_frame.specs.NestedRule.{job_of};
ghost use Rattle.table_frames.specs.Frames.{AtFrame, root_job};
ghost use Rattle.table_runs.specs.RunKeys.{key_of};
ghost use Rattle.table_runs.specs.Begins.{Begins};
ghost use Rattle.table_frames.specs.inside.Benches.{IsBenchOf};
ghost use Rattle.nested_runs.specs.Totals.{all_spans};
ghost use Rattle.table_runs.specs.Spans.{spans_done, spans_kept};
ghost use Rattle.span_profile.specs.Watch.{TellsOn};
ghost use Rattle.table_frames.specs.inside.Around.{levels_around, spans_around};
ghost use Rattle.table_frames.specs.inside.Levels.{IsNext, spans_next};
ghost use Rattle.table_runs.specs.OpenStarts.{IsStartOf};
ghost use Rattle.table_frames.specs.inside.LockedRuns.{first_frame, frame_of};
ghost use Rattle.table_frames.specs.inside.TriedReleases.{IsInnerAt};
ghost use Rattle.table_runs.specs.Openings.{IsInnerIn};

use super::alone::{Bench, conclude, settle, step};
use join_tables::Remaining;
use outside_io::NoMemory;
use run_frame::{FrameRun, Job};
use span_profile::Watch;
use std::alloc::Global;
use std::boxed::Box;
use std::marker::Model;
use std::sync::Wait;
use table_runs::{Begun, InnerBegun, OpenStart, RunKeeper, TableRun, add_again};

/// A run by one thread that goes on, and the runs around it, which wait for it.
#[derive(Drop)]
pub struct Level<J: Job> {
    alloc: Global,
    run: TableRun<J>,
    bench: Bench<J>,
    kept: RunKeeper<J>,
    // The run around it, and the start there whose work it is.
    around: Option<Box<Level<J>>>,
    start: Option<OpenStart<J>>,
}

impl<J: Job> Model for Level<J> {
    ghost use Rattle.std.specs.Prelude.{length};
    ghost use Rattle.table_frames.specs.inside.Around.{LevelView};

    ghost Value = { LevelView J };

    ghost use Rattle.std.specs.Prelude.{◌≡◌, ◌+◌, ◌∷◌, IfNone, IfSome};
    ghost use Rattle.table_runs.specs.RunKeys.{key_of};
    ghost use Rattle.table_runs.specs.Spans.{spans_done, spans_kept};
    ghost use Rattle.table_frames.specs.inside.Benches.{IsBenchOf};
    ghost use Rattle.table_frames.specs.inside.Around.{levels_around, spans_around};
    ghost use Rattle.table_runs.specs.OpenStarts.{IsStartOf};
    ghost use Rattle.table_frames.specs.inside.LockedRuns.{first_frame, frame_of};

    ghost view = { λ level. record {
      frames = level.run ∷ levels_around level.around;
      spans = spans_kept level.kept + spans_done level.bench.done + spans_around level.around;
    } };

    ghost invariant = { λ level. (key_of level.kept ≡ level.run)
        × IsBenchOf J.meaning level.run level.bench
        × (frame_of level.start ≡ first_frame (levels_around level.around))
        × IfSome level.start (IsStartOf J.meaning level.run.job)
        × IfNone level.start (spans_around level.around ≡ 0) };

    ghost size = { λ level. length level.frames };
}

/// What a run by one thread has led to.
#[derive(Drop)]
pub enum Next<J: Job> {
    /// This run goes on.
    Level(Level<J>),
    /// The outermost run is over.
    Run(FrameRun<J>),
}

impl<J: Job + Drop> Level<J> {
    /// A run that has begun, inside another or in none.
    pub fn new(
        alloc: Global,
        begun: Begun<J>,
        depth: u32,
        around: Option<Box<Level<J>>>,
        start: Option<OpenStart<J>>,
    ) -> Result<Level<J>, NoMemory>
        requires begins { Begins J.meaning begun.run.job begun }
        requires frame { frame_of start ≡ first_frame (levels_around around) }
        requires start { IfSome start (IsStartOf J.meaning begun.run.job) }
        requires outermost { IfNone start (spans_around around ≡ 0) }
        ensures frames { IfOk result
            (λ level. level.frames ≡ begun.run ∷ levels_around around) }
        ensures spans { IfOk result (λ level. level.spans ≡ spans_around around) }
    {
        let Begun { run, fresh, kept } = begun;
        let bench = Bench::new(alloc, &run, fresh, depth)?;
        Ok(Level {
            alloc,
            run,
            bench,
            kept,
            around,
            start,
        })
    }

    /// Steps releases, the newest first, until a run begins inside it or it is over, and tells a watcher the spans that
    /// end. One that is over goes on with the start whose work it was.
    pub fn advance<X: Watch, R: Wait>(self, rt: &R, watcher: &mut X) -> Result<Next<J>, NoMemory>
        ensures next { IfOk result (IsNext J.meaning (root_job self.frames)) }
        ensures told { IfOk result
            (λ next. TellsOn X.told self.spans (spans_next next) watcher.old watcher.new) }
    {
        let Level {
            alloc,
            run,
            mut bench,
            mut kept,
            around,
            start,
        } = self;
        match run_on(rt, &run, &mut bench, &mut kept, watcher)? {
            Some(inner) => {
                let level = Level {
                    alloc,
                    run,
                    bench,
                    kept,
                    around,
                    start,
                };
                Ok(Next::Level(level.open(inner)?))
            }
            None => leave(kept, around, start, watcher),
        }
    }

    // A run that has begun inside it.
    fn open(self, inner: InnerBegun<J>) -> Result<Level<J>, NoMemory>
        requires { IsInnerAt J.meaning self.frames inner }
        ensures frames { IfOk result (λ level. level.frames ≡ inner.begun.run ∷ self.frames) }
        ensures spans { IfOk result (λ level. level.spans ≡ self.spans) }
    {
        let InnerBegun {
            begun,
            start,
            again,
        } = inner;
        let Level {
            alloc,
            run,
            mut bench,
            kept,
            around,
            start: own,
        } = self;
        bench.ready.reserve(1)?;
        add_again(&mut bench.ready, again);
        let depth = bench.depth.saturating_add(1);
        let level = Level {
            alloc,
            run,
            bench,
            kept,
            around,
            start: own,
        };
        let level = Box::new(alloc, level)?;
        Level::new(alloc, begun, depth, Some(level), Some(start))
    }

    // Goes on with a start in place of whose work a run was made, whose spans the watcher was told.
    fn resumed<X: Watch>(
        self,
        start: OpenStart<J>,
        inner: FrameRun<J>,
        watcher: &mut X,
    ) -> Result<Level<J>, NoMemory>
        requires frame { AtFrame self.frames (λ key. start.frame ≡ key) }
        requires start { IsStartOf J.meaning (job_of inner) start }
        requires kept { IsKept J.meaning inner }
        ensures frames { IfOk result (λ level. level.frames ≡ self.frames) }
        ensures told { IfOk result (λ level. TellsOn X.told (self.spans + all_spans inner) level.spans
            watcher.old watcher.new) }
    {
        let Level {
            alloc,
            run,
            mut bench,
            kept,
            around,
            start: own,
        } = self;
        let attempt = run.resume(start, inner)?;
        conclude(&run, &mut bench, attempt, watcher)?;
        Ok(Level {
            alloc,
            run,
            bench,
            kept,
            around,
            start: own,
        })
    }
}

// Steps releases, the newest first, until a run begins inside theirs, or the last turn is done.
fn run_on<J: Job + Drop, X: Watch, R: Wait>(
    rt: &R,
    run: &TableRun<J>,
    bench: &mut Bench<J>,
    kept: &mut RunKeeper<J>,
    watcher: &mut X,
) -> Result<Option<InnerBegun<J>>, NoMemory>
    requires kept { key_of kept.old ≡ run.now }
    requires bench { IsBenchOf J.meaning run.now bench.old }
    ensures same { OnOk result (key_of kept.new ≡ run.now) }
    ensures bench { OnOk result (IsBenchOf J.meaning run.now bench.new) }
    ensures inner { IfOk result (λ inner. IfSome inner (IsInnerIn J.meaning run.now)) }
    ensures all { IfOk result (λ inner. IfNone inner
        (TellsRun (J.meaning.net kept.new.job) (J.meaning.limit kept.new.job)
        (entries_told kept.new.keeper.fates) × (spans_done bench.new.done ≡ 0))) }
    ensures told { OnOk result
        (TellsOn X.told (spans_kept kept.old + spans_done bench.old.done)
        (spans_kept kept.new + spans_done bench.new.done) watcher.old watcher.new) }
{
    for _ in rt.forever() {
        if keep_done(run, bench, kept)? {
            return Ok(None);
        }
        if let Some(inner) = step_newest(run, bench, watcher)? {
            return Ok(Some(inner));
        }
    }
    unreachable!()
}

// Gives the turns that are done to the keeper. Whether the last of the run was among them.
fn keep_done<J: Job + Drop>(
    run: &TableRun<J>,
    bench: &mut Bench<J>,
    kept: &mut RunKeeper<J>,
) -> Result<bool, NoMemory>
    requires kept { key_of kept.old ≡ run.now }
    requires bench { IsBenchOf J.meaning run.now bench.old }
    ensures same { OnOk result (key_of kept.new ≡ run.now) }
    ensures bench { OnOk result (IsBenchOf J.meaning run.now bench.new) }
    ensures all { IfOk result (λ over. IsTrue over
        → TellsRun (J.meaning.net kept.new.job) (J.meaning.limit kept.new.job)
        (entries_told kept.new.keeper.fates) × (spans_done bench.new.done ≡ 0)) }
    ensures spans { OnOk result (spans_kept kept.new + spans_done bench.new.done
        ≡ spans_kept kept.old + spans_done bench.old.done) }
{
    if bench.done.is_empty() {
        return Ok(false);
    }
    match run.keep(kept, &mut bench.done)? {
        Remaining::All => Ok(true),
        Remaining::More => Ok(false),
    }
}

// Steps the newest release. Where nothing is ready it decides what becomes of what is parked.
fn step_newest<J: Job + Drop, X: Watch>(
    run: &TableRun<J>,
    bench: &mut Bench<J>,
    watcher: &mut X,
) -> Result<Option<InnerBegun<J>>, NoMemory>
    requires bench { IsBenchOf J.meaning run.now bench.old }
    ensures bench { OnOk result (IsBenchOf J.meaning run.now bench.new) }
    ensures inner { IfOk result (λ inner. IfSome inner (IsInnerIn J.meaning run.now)) }
    ensures told { OnOk result (TellsOn X.told (spans_done bench.old.done)
        (spans_done bench.new.done) watcher.old watcher.new) }
{
    let Some(ready) = bench.ready.pop() else {
        settle(run, bench)?;
        return Ok(None);
    };
    step(run, bench, ready, watcher)
}

// Puts together a run that is over, and goes on with the start whose work it was.
fn leave<J: Job + Drop, X: Watch>(
    kept: RunKeeper<J>,
    around: Option<Box<Level<J>>>,
    start: Option<OpenStart<J>>,
    watcher: &mut X,
) -> Result<Next<J>, NoMemory>
    requires all { TellsRun (J.meaning.net kept.job) (J.meaning.limit kept.job)
        (entries_told kept.keeper.fates) }
    requires frame { frame_of start ≡ first_frame (levels_around around) }
    requires start { IfSome start (IsStartOf J.meaning kept.job) }
    requires outermost { IfNone start (spans_around around ≡ 0) }
    ensures next { IfOk result
        (IsNext J.meaning (root_job (key_of kept ∷ levels_around around))) }
    ensures told { IfOk result (λ next. TellsOn X.told (spans_kept kept + spans_around around)
        (spans_next next) watcher.old watcher.new) }
{
    let run = kept.finish()?;
    let Some(start) = start else {
        return Ok(Next::Run(run));
    };
    let Some(around) = around else { unreachable!() };
    let level = Box::into_inner(around).resumed(start, run, watcher)?;
    Ok(Next::Level(level))
}
