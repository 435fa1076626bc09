// A desk of two graphs with two callers.
ghost use Rattle.std.specs.Prelude.{◌≡◌, IfOk, IfSome, length};
ghost use Rattle.desk_book.specs.Desks.{ArePassesOf, IsPassOf};
ghost use Rattle.desk_book.specs.Passes.{LooksAgain};

use crate::tick_job::TickJob;
use desk_book::{Desk, DeskEnd, DeskParts, DeskPass, TakeAnswer, Taken};
use outside_io::{List, NoMemory};
use std::alloc::Global;
use std::sync::{Arc, Wait};

/// A desk of two graphs, with the passes of its two callers.
#[derive(Drop)]
pub struct TwoCallers {
    pub desk: Desk<TickJob>,
    pub first: DeskPass,
    pub second: DeskPass,
}

/// What taking an ask came to.
#[derive(Clone, Copy, Debug, PartialEq, Eq)]
pub enum Said {
    Took(u64),
    Busy(u64),
    Empty,
}

/// A new desk. The first graph has a task, and the second none.
pub fn two_callers(alloc: Global) -> Result<TwoCallers, NoMemory>
    ensures jobs { IfOk result (λ two. length two.desk.jobs ≡ 2) }
    ensures callers { IfOk result (λ two. two.desk.callers ≡ 2) }
    ensures first { IfOk result
        (λ two. IsPassOf two.desk two.first × (two.first.caller ≡ 0)) }
    ensures second { IfOk result
        (λ two. IsPassOf two.desk two.second × (two.second.caller ≡ 1)) }
{
    callers_of(
        alloc,
        TickJob::of_tasks(alloc, 1)?,
        TickJob::of_tasks(alloc, 0)?,
    )
}

/// A new desk of these two graphs.
pub fn callers_of(alloc: Global, zeroth: TickJob, oneth: TickJob) -> Result<TwoCallers, NoMemory>
    ensures jobs { IfOk result (λ two. length two.desk.jobs ≡ 2) }
    ensures callers { IfOk result (λ two. two.desk.callers ≡ 2) }
    ensures first { IfOk result
        (λ two. IsPassOf two.desk two.first × (two.first.caller ≡ 0)) }
    ensures second { IfOk result
        (λ two. IsPassOf two.desk two.second × (two.second.caller ≡ 1)) }
{
    let mut jobs = Vec::new(alloc);
    jobs.push(Arc::new(alloc, zeroth)?)?;
    jobs.push(Arc::new(alloc, oneth)?)?;
    let DeskParts { desk, mut passes } = Desk::new(alloc, jobs, 2)?;
    let second = passes.remove(1);
    let first = passes.remove(0);
    Ok(TwoCallers {
        desk,
        first,
        second,
    })
}

/// Takes an ask, and says which.
pub fn take<R: Wait>(rt: &R, desk: &Desk<TickJob>, pass: &mut DeskPass) -> (Said, Option<Taken>)
    requires pass { IsPassOf desk.now pass.old }
    ensures pass { IsPassOf desk.now pass.new }
    ensures looks { LooksAgain pass.old pass.new }
    ensures taken { IfSome result.1 (λ taken. taken.register ≡ desk.now.register) }
{
    match desk.take(rt, pass) {
        TakeAnswer::Taken(taken) => (Said::Took(taken.ask().number), Some(taken)),
        TakeAnswer::Busy(oldest) => (Said::Busy(oldest), None),
        TakeAnswer::Empty => (Said::Empty, None),
    }
}

/// Ends an ask, if there is one, as if no round had been run to its end.
#[tactic(auto, using(crate::proofs::TwoPasses::no_rounds))]
pub fn end<R: Wait>(
    rt: &R,
    alloc: Global,
    desk: &Desk<TickJob>,
    pass: &mut DeskPass,
    taken: Option<Taken>,
)
    requires pass { IsPassOf desk.now pass.old }
    requires taken { IfSome taken (λ taken. taken.register ≡ desk.now.register) }
    ensures pass { IsPassOf desk.now pass.new }
    ensures caller { pass.new.caller ≡ pass.old.caller }
{
    if let Some(taken) = taken {
        desk.end(rt, pass, taken, List::new(alloc), false);
    }
}

/// Finishes the desk.
#[tactic(auto, using(crate::proofs::TwoPasses::both_passes))]
pub fn finish<R: Wait>(rt: &R, alloc: Global, two: TwoCallers) -> Result<DeskEnd<TickJob>, NoMemory>
    requires callers { two.desk.callers ≡ 2 }
    requires first { IsPassOf two.desk two.first × (two.first.caller ≡ 0) }
    requires second { IsPassOf two.desk two.second × (two.second.caller ≡ 1) }
{
    let TwoCallers {
        desk,
        first,
        second,
    } = two;
    let mut passes = Vec::new(alloc);
    passes.push(first)?;
    passes.push(second)?;
    Ok(desk.finish(rt, passes))
}
