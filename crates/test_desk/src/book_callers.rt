// Two callers that ask beside two that take, each by a thread.
ghost use Rattle.std.specs.Prelude.{◌≡◌, IfOk};
ghost use Rattle.desk_book.specs.Desks.{ArePassesOf, IsPassOf};

use desk_book::{Desk, DeskEnd, DeskParts, DeskPass};
use desk_trials::{Said, TickJob, end, take};
use std::sync::{Arc, Wait};
use std::test::Fail;
use std::thread::{Threads, for_each_mut, yield_now};

// How often a caller asks, and how often it finds nothing to take before it goes.
const ASKS: u64 = 50;

const PATIENCE: u32 = 1_000;

// Asks so many times, of one graph and of the other.
fn ask_often<R: Wait>(rt: &R, desk: &Desk<TickJob>, pass: &mut DeskPass)
    requires pass { IsPassOf desk.now pass.old }
    ensures pass { IsPassOf desk.now pass.new }
    ensures caller { pass.new.caller ≡ pass.old.caller }
{
    for number in 0..ASKS {
        let _ = desk.ask(rt, pass, (number % 2) as u32, number);
    }
}

// Takes asks and ends them, until it has so often found none that waits.
fn take_often<R: Wait + AllocGlobal>(rt: &R, desk: &Desk<TickJob>, pass: &mut DeskPass)
    requires pass { IsPassOf desk.now pass.old }
    ensures pass { IsPassOf desk.now pass.new }
    ensures caller { pass.new.caller ≡ pass.old.caller }
{
    let mut patience = PATIENCE;
    for _ in rt.forever() {
        let (said, taken) = take(rt, desk, pass);
        end(rt, rt.alloc(), desk, pass, taken);
        if said == Said::Empty {
            patience = patience.saturating_sub(1);
        }
        if patience == 0 {
            return;
        }
        yield_now();
    }
    unreachable!()
}

// The first two callers ask, and then all take.
fn by_threads<R: Threads + Wait + AllocGlobal + Sync>(
    rt: &R,
    desk: &Desk<TickJob>,
    passes: &mut Vec<DeskPass>,
)
    requires { ArePassesOf desk.now passes.old.items }
    ensures { ArePassesOf desk.now passes.new.items }
{
    for_each_mut(
        rt,
        passes,
        4,
        &|at, pass: &mut DeskPass|
            requires { IsPassOf desk.now pass.old }
            ensures pass { IsPassOf desk.entry.now pass.new }
            ensures caller { pass.new.caller ≡ pass.old.caller }
        {
            if at < 2 {
                ask_often(rt, desk, pass);
            }
            take_often(rt, desk, pass);
        },
    );
}

// A desk of two graphs with four callers, of which none has asked.
fn four_callers<R: AllocGlobal>(rt: &R) -> Result<DeskParts<TickJob>, Fail>
    ensures { IfOk result (λ parts. ArePassesOf parts.desk parts.passes.items) }
{
    let alloc = rt.alloc();
    let mut jobs = Vec::new(alloc);
    jobs.push(Arc::new(alloc, TickJob::of_tasks(alloc, 1)?)?)?;
    jobs.push(Arc::new(alloc, TickJob::of_tasks(alloc, 0)?)?)?;
    Ok(Desk::new(alloc, jobs, 4)?)
}

#[test]
fn each_ask_of_two_threads_beside_two_others_ends(rt: HostRuntime) -> Result<(), Fail> {
    let DeskParts { desk, mut passes } = four_callers(&rt)?;
    by_threads(&rt, &desk, &mut passes);
    match desk.finish(&rt, passes) {
        DeskEnd::Done(run) => {
            assert_eq!(rt; run.runs.len(), 100);
            assert_eq!(rt; run.history.len(), 300);
        }
        DeskEnd::Open(_, _, ask) => panic!(rt; "ask {ask} has not ended"),
    }
    Ok(())
}
