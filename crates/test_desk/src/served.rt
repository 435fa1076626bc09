// What serving a desk comes to.
ghost use Rattle.std.specs.Prelude.{◌≡◌};
ghost use Rattle.desk_book.specs.Desks.{IsPassOf};

use desk_trials::{ByThreads, TickJob, TwoCallers, finish, team, two_callers};
use outside_io::List;
use run_desk::{Ask, Desk, DeskEnd, DeskEntry, DeskPass, Served, serve};
use run_frame::FrameRun;
use std::sync::Wait;
use std::test::Fail;

const FIRST: Ask = Ask {
    number: 0,
    caller: 0,
    graph: 0,
    times: 2,
};

const SECOND: Ask = Ask {
    number: 1,
    caller: 1,
    graph: 1,
    times: 1,
};

const THIRD: Ask = Ask {
    number: 2,
    caller: 0,
    graph: 0,
    times: 1,
};

const HISTORY: [DeskEntry; 9] = [
    DeskEntry::Asked(FIRST),
    DeskEntry::Asked(SECOND),
    DeskEntry::Asked(THIRD),
    DeskEntry::Took(0),
    DeskEntry::Ended(0, true),
    DeskEntry::Took(1),
    DeskEntry::Ended(1, true),
    DeskEntry::Took(2),
    DeskEntry::Ended(2, true),
];

// Makes the three asks, and says whether each is taken up.
fn asks_are_taken_up<R: Wait>(
    rt: &R,
    desk: &Desk<TickJob>,
    first: &mut DeskPass,
    second: &mut DeskPass,
) -> bool
    requires first { IsPassOf desk.now first.old }
    requires second { IsPassOf desk.now second.old }
    ensures first { IsPassOf desk.now first.new × (first.new.caller ≡ first.old.caller) }
    ensures second { IsPassOf desk.now second.new × (second.new.caller ≡ second.old.caller) }
{
    let zeroth = desk.ask(rt, first, 0, 2);
    let oneth = desk.ask(rt, second, 1, 1);
    let last = desk.ask(rt, first, 0, 1);
    zeroth == Ok(0) && oneth == Ok(1) && last == Ok(2)
}

// Whether each ask has so many rounds.
fn have_rounds(runs: &[List<FrameRun<TickJob>>], wanted: &[usize]) -> bool {
    runs.len() == wanted.len()
        && runs
            .iter()
            .zip(wanted)
            .all(|(runs, count)| runs.len() == *count)
}

// By one thread and by two workers: each ask has as many rounds as it asked for. While an ask waits, here first one of
// the caller's own, the answer isn't that none does.
#[test]
fn desk_turns(rt: HostRuntime) -> Result<(), Fail> {
    let alloc = rt.alloc();
    let mut alone = team(alloc, 1)?;
    let mut crew = team(alloc, 2)?;
    let TwoCallers {
        desk,
        mut first,
        mut second,
    } = two_callers(alloc)?;
    assert!(rt; asks_are_taken_up(&rt, &desk, &mut first, &mut second));
    let zeroth = serve::<_, _, ByThreads, _>(&rt, alloc, &desk, &mut first, &mut alone);
    assert_eq!(rt; zeroth, Served::Ran(0));
    let oneth = serve::<_, _, ByThreads, _>(&rt, alloc, &desk, &mut second, &mut crew);
    assert_eq!(rt; oneth, Served::Ran(1));
    let last = serve::<_, _, ByThreads, _>(&rt, alloc, &desk, &mut second, &mut crew);
    assert_eq!(rt; last, Served::Ran(2));
    let nothing = serve::<_, _, ByThreads, _>(&rt, alloc, &desk, &mut first, &mut alone);
    assert_eq!(rt; nothing, Served::Empty);
    let callers = TwoCallers {
        desk,
        first,
        second,
    };
    let DeskEnd::Done(run) = finish(&rt, alloc, callers)? else {
        panic!(rt; "an ask has not ended")
    };
    assert!(rt; run.history.as_slice() == HISTORY.as_slice());
    assert!(rt; have_rounds(run.runs.as_slice(), &[2, 1, 1]));
    Ok(())
}
