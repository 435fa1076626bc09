// What a desk refuses, and what serving and finishing it comes to where an ask may not be taken. `book_refusals.rt` has
// a full desk.
use desk_trials::{ByThreads, Said, TwoCallers, finish, take, team, two_callers};
use run_desk::{DeskEnd, DeskError, Served, serve};
use std::test::Fail;

// The second caller takes the first ask of a graph and does not end it.
#[test]
fn desk_refusals(rt: HostRuntime) -> Result<(), Fail> {
    let alloc = rt.alloc();
    let mut alone = team(alloc, 1)?;
    let TwoCallers {
        desk,
        mut first,
        mut second,
    } = two_callers(alloc)?;
    assert_eq!(rt;
        desk.ask(&rt, &mut first, 2, 1),
        Err(DeskError::NoSuchGraph(2))
    );
    assert_eq!(rt;
        desk.ask(&rt, &mut first, 0, 1001),
        Err(DeskError::TooOften(1001))
    );
    let nothing = serve::<_, _, ByThreads, _>(&rt, alloc, &desk, &mut first, &mut alone);
    assert_eq!(rt; nothing, Served::Empty);
    assert_eq!(rt; desk.ask(&rt, &mut first, 0, 1), Ok(0));
    assert_eq!(rt; desk.ask(&rt, &mut first, 0, 1), Ok(1));
    let (said, taken) = take(&rt, &desk, &mut second);
    assert_eq!(rt; said, Said::Took(0));
    let waiting = serve::<_, _, ByThreads, _>(&rt, alloc, &desk, &mut first, &mut alone);
    assert_eq!(rt; waiting, Served::Busy(1));
    let callers = TwoCallers {
        desk,
        first,
        second,
    };
    match finish(&rt, alloc, callers)? {
        DeskEnd::Done(_) => panic!(rt; "no ask has ended"),
        DeskEnd::Open(_, _, ask) => assert_eq!(rt; ask, 0),
    }
    drop(taken);
    Ok(())
}
