// Runs by one thread, whose steps are taken in some order. What a step has done is recorded at once.
ghost use Rattle.std.specs.Prelude.{◌≡◌, ◌<◌, ◌++◌, [], IfNone, IfOk, OnOk};
ghost use Rattle.span_book.specs.SpanBooks.{name_of};
ghost use Rattle.test_runs.specs.inside.Tellers.{AreIn, GoesOn};

use outside_io::NoMemory;
use run_frame::FrameRun;
use span_book::{SpanBook, Teller};
use span_profile::{SpanCount, Watch};
use std::alloc::Global;
use std::sync::{Arc, Wait};
use table_frames::{Backlog, Brought, ClosedRun, Frame, Release, State, Stepped};
use test_jobs::NumberJob;

// The most steps of a run.
const STEPS: u32 = 10_000;

/// How a run picks its next step among those that it may take.
#[derive(Clone, Copy)]
pub(crate) enum Order {
    /// The newest.
    Newest,
    /// The oldest.
    Oldest,
    /// One that goes by a number.
    Mixed(u64),
}

impl Order {
    // Which of so many is next.
    fn place(self, step: u32, count: usize) -> usize
        requires { 0 < count }
        ensures { result < count }
    {
        match self {
            Order::Newest => count - 1,
            Order::Oldest => 0,
            Order::Mixed(seed) => {
                let mixed = (step as u64)
                    .wrapping_mul(seed)
                    .wrapping_mul(6_364_136_223_846_793_005);
                (mixed >> 33) as usize % count
            }
        }
    }
}

// The steps that may be taken, what the last one has done, and who tells the spans that steps end, and counts them.
#[derive(Drop)]
struct Pending {
    releases: Vec<Release<NumberJob>>,
    backlog: Backlog<NumberJob>,
    teller: Teller,
    told: SpanCount,
}

/// The run that takes its steps in an order, if it comes to its end, and how many spans its steps ended.
#[tactic(auto, using(crate::proofs::Tellers::begun, crate::proofs::Tellers::closed_at_once))]
pub(crate) fn run_in_order<R: Wait>(
    rt: &R,
    alloc: Global,
    job: NumberJob,
    order: Order,
) -> Result<Option<(FrameRun<NumberJob>, u64)>, NoMemory> {
    let (book, mut spans) = SpanBook::new(alloc, 1)?;
    let book = Arc::new(alloc, book)?;
    let teller = book.deal(&mut spans);
    let job = Arc::new(alloc, job)?;
    let Stepped { released, state } = Frame::begin(alloc, job, Arc::try_clone(&book)?, spans)?;
    let pending = Pending {
        releases: released,
        backlog: Backlog::new(alloc),
        teller,
        told: SpanCount::new(),
    };
    if let State::Closed(closed) = state {
        return Ok(Some(settle(&book, closed, pending)));
    }
    go_on(rt, &book, pending, order)
}

// Takes the steps that are left, and gives the run if it comes to its end.
fn go_on<R: Wait>(
    rt: &R,
    book: &SpanBook,
    mut pending: Pending,
    order: Order,
) -> Result<Option<(FrameRun<NumberJob>, u64)>, NoMemory>
    requires none { pending.backlog.frames ≡ [] }
    requires book { pending.teller.book ≡ name_of book.now }
    requires releases { AreIn pending.teller.book pending.releases.items [] }
{
    for step in 1..STEPS {
        if let Some(closed) = take_step(rt, &mut pending, order, step)? {
            return Ok(Some(settle(book, closed, pending)));
        }
    }
    Ok(None)
}

// The run, once the account of its spans is settled, and how many were told.
fn settle(
    book: &SpanBook,
    closed: ClosedRun<NumberJob>,
    pending: Pending,
) -> (FrameRun<NumberJob>, u64)
    requires closed { closed.spans.book ≡ name_of book.now }
    requires teller { pending.teller.book ≡ name_of book.now }
{
    let ClosedRun { run, mut spans } = closed;
    let Pending { teller, told, .. } = pending;
    book.collect(&mut spans, teller);
    book.settle(&mut spans);
    (run, told.count())
}

// Takes a step, if one is left, and has recorded what it has done. It gives the run if that is closed.
#[tactic(auto, using(crate::proofs::Tellers::none_left, crate::proofs::Tellers::picked))]
fn take_step<R: Wait>(
    rt: &R,
    pending: &mut Pending,
    order: Order,
    step: u32,
) -> Result<Option<ClosedRun<NumberJob>>, NoMemory>
    requires none { pending.old.backlog.frames ≡ [] }
    requires book { AreIn pending.old.teller.book pending.old.releases.items [] }
    ensures on { IfOk result (GoesOn pending.old.teller.book pending.new.releases.items
        pending.new.backlog.frames) }
    ensures none { IfOk result (λ ran. IfNone ran (pending.new.backlog.frames ≡ [])) }
    ensures book { pending.new.teller.book ≡ pending.old.teller.book }
{
    let count = pending.releases.len();
    if count == 0 {
        return Ok(None);
    }
    let release = pending.releases.remove(order.place(step, count));
    take_step_of(rt, pending, release)?;
    record(rt, pending)
}

// Takes the step of a release.
#[tactic(auto, using(crate::proofs::Tellers::after_step))]
fn take_step_of<R: Wait>(
    rt: &R,
    pending: &mut Pending,
    release: Release<NumberJob>,
) -> Result<(), NoMemory>
    requires none { pending.old.backlog.frames ≡ [] }
    requires book { AreIn pending.old.teller.book pending.old.releases.items release.frames }
    ensures on { OnOk result (AreIn pending.old.teller.book pending.new.releases.items
        pending.new.backlog.frames) }
    ensures book { pending.new.teller ≡ pending.old.teller }
{
    let Stepped { released, state } = Frame::step(rt, release, &mut pending.backlog)?;
    add(&mut pending.releases, released)?;
    match state {
        State::Inner(first) => add(&mut pending.releases, first),
        _ => Ok(()),
    }
}

// Adds the releases that were made.
fn add(
    releases: &mut Vec<Release<NumberJob>>,
    mut made: Vec<Release<NumberJob>>,
) -> Result<(), NoMemory>
    ensures { OnOk result (releases.new.items ≡ releases.old.items ++ made.items) }
{
    releases.append(&mut made)?;
    Ok(())
}

// Has recorded what was done, level by level. It gives the run if that is closed. What is parked goes on or is dropped
// where nothing else is left.
fn record<R: Wait>(rt: &R, pending: &mut Pending) -> Result<Option<ClosedRun<NumberJob>>, NoMemory>
    requires book { AreIn pending.old.teller.book pending.old.releases.items
        pending.old.backlog.frames }
    ensures on { IfOk result (GoesOn pending.old.teller.book pending.new.releases.items
        pending.new.backlog.frames) }
    ensures none { IfOk result (λ ran. IfNone ran (pending.new.backlog.frames ≡ [])) }
    ensures book { pending.new.teller.book ≡ pending.old.teller.book }
{
    for _ in rt.forever() {
        if pending.backlog.is_empty() {
            return Ok(None);
        }
        if let Some(closed) = bring(rt, pending)? {
            return Ok(Some(closed));
        }
    }
    unreachable!()
}

// Tells the span that the newest of the backlog ended, which has one fate at most, and brings it.
#[tactic(auto, using(crate::proofs::Tellers::closed_last, crate::proofs::Tellers::went))]
fn bring<R: Wait>(rt: &R, pending: &mut Pending) -> Result<Option<ClosedRun<NumberJob>>, NoMemory>
    requires book { AreIn pending.old.teller.book pending.old.releases.items
        pending.old.backlog.frames }
    ensures on { IfOk result (GoesOn pending.old.teller.book pending.new.releases.items
        pending.new.backlog.frames) }
    ensures book { pending.new.teller.book ≡ pending.old.teller.book }
{
    tell_newest(&pending.backlog, &mut pending.told)?;
    let Brought { state, .. } = Frame::bring(rt, &mut pending.backlog, &mut pending.teller)?;
    match state {
        State::Closed(closed) => Ok(Some(closed)),
        State::Resumed(released) => {
            add(&mut pending.releases, released)?;
            Ok(None)
        }
        State::Went => {
            settle_parked(rt, pending)?;
            Ok(None)
        }
        State::Parked(_) | State::Inner(_) => unreachable!(),
    }
}

// Tells the span that the newest of a backlog ended, if it ended one.
fn tell_newest(backlog: &Backlog<NumberJob>, told: &mut SpanCount) -> Result<(), NoMemory> {
    match backlog.newest_span() {
        Some(span) => told.span(span),
        None => Ok(()),
    }
}

// Decides what becomes of what is parked in the frame of the backlog, whose run goes on.
#[tactic(auto, using(crate::proofs::Tellers::woken, crate::proofs::Tellers::none_woken))]
fn settle_parked<R: Wait>(rt: &R, pending: &mut Pending) -> Result<(), NoMemory>
    requires brought { pending.old.backlog.fates ≡ [] }
    requires book { AreIn pending.old.teller.book pending.old.releases.items
        pending.old.backlog.frames }
    ensures on { OnOk result (AreIn pending.old.teller.book pending.new.releases.items
        pending.new.backlog.frames) }
    ensures book { pending.new.teller ≡ pending.old.teller }
{
    match Frame::settle(rt, &mut pending.backlog)? {
        Some(release) => {
            pending.releases.push(release)?;
            Ok(())
        }
        None => Ok(()),
    }
}
