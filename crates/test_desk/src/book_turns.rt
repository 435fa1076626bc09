// Whose turn it is, and what a desk comes to.
use desk_book::{Ask, DeskEnd, DeskEntry};
use desk_trials::{Said, TwoCallers, end, finish, take, two_callers};
use std::test::Fail;

const ASK: Ask = Ask {
    number: 0,
    caller: 0,
    graph: 0,
    times: 2,
};

const HISTORY: [DeskEntry; 3] = [
    DeskEntry::Asked(ASK),
    DeskEntry::Took(0),
    DeskEntry::Ended(0, false),
];

// The third ask is passed over while the first, of the same graph, has not ended.
#[test]
fn asks_of_one_graph_take_turns(rt: HostRuntime) -> Result<(), Fail> {
    let alloc = rt.alloc();
    let TwoCallers {
        desk,
        mut first,
        mut second,
    } = two_callers(alloc)?;
    assert_eq!(rt; take(&rt, &desk, &mut second).0, Said::Empty);
    assert_eq!(rt; desk.ask(&rt, &mut first, 0, 2), Ok(0));
    assert_eq!(rt; desk.ask(&rt, &mut second, 1, 1), Ok(1));
    assert_eq!(rt; desk.ask(&rt, &mut first, 0, 1), Ok(2));
    let (said, zeroth) = take(&rt, &desk, &mut first);
    assert_eq!(rt; said, Said::Took(0));
    let (said, other) = take(&rt, &desk, &mut second);
    assert_eq!(rt; said, Said::Took(1));
    assert_eq!(rt; take(&rt, &desk, &mut second).0, Said::Busy(2));
    end(&rt, alloc, &desk, &mut second, zeroth);
    let (said, last) = take(&rt, &desk, &mut second);
    assert_eq!(rt; said, Said::Took(2));
    assert_eq!(rt; take(&rt, &desk, &mut first).0, Said::Empty);
    drop((other, last));
    Ok(())
}

#[test]
fn a_finished_desk_has_its_history(rt: HostRuntime) -> Result<(), Fail> {
    let alloc = rt.alloc();
    let TwoCallers {
        desk,
        mut first,
        mut second,
    } = two_callers(alloc)?;
    assert_eq!(rt; desk.ask(&rt, &mut first, 0, 2), Ok(0));
    let (_, taken) = take(&rt, &desk, &mut second);
    end(&rt, alloc, &desk, &mut second, taken);
    let ended = finish(
        &rt,
        alloc,
        TwoCallers {
            desk,
            first,
            second,
        },
    )?;
    let DeskEnd::Done(run) = ended else {
        panic!(rt; "the ask has not ended")
    };
    assert!(rt; run.history.as_slice() == HISTORY.as_slice());
    assert_eq!(rt; run.runs.len(), 1);
    Ok(())
}
