// What a desk refuses.
use desk_book::{DeskEnd, DeskError, MAX_ASKS};
use desk_trials::{Said, TwoCallers, end, finish, take, two_callers};
use std::test::Fail;

#[test]
fn the_first_reason_is_named(rt: HostRuntime) -> Result<(), Fail> {
    let TwoCallers {
        desk,
        mut first,
        ..
    } = two_callers(rt.alloc())?;
    assert_eq!(rt;
        desk.ask(&rt, &mut first, 2, 1),
        Err(DeskError::NoSuchGraph(2))
    );
    assert_eq!(rt;
        desk.ask(&rt, &mut first, 0, 1001),
        Err(DeskError::TooOften(1001))
    );
    assert_eq!(rt;
        desk.ask(&rt, &mut first, 2, 1001),
        Err(DeskError::NoSuchGraph(2))
    );
    assert_eq!(rt; desk.ask(&rt, &mut first, 0, 1000), Ok(0));
    Ok(())
}

#[test]
fn a_full_desk_refuses_each_ask(rt: HostRuntime) -> Result<(), Fail> {
    let TwoCallers {
        desk,
        mut first,
        ..
    } = two_callers(rt.alloc())?;
    for number in 0..MAX_ASKS {
        assert_eq!(rt; desk.ask(&rt, &mut first, 0, 0), Ok(number));
    }
    assert_eq!(rt;
        desk.ask(&rt, &mut first, 0, 0),
        Err(DeskError::Full(10_000))
    );
    // What is wrong with the ask itself comes first.
    assert_eq!(rt;
        desk.ask(&rt, &mut first, 2, 0),
        Err(DeskError::NoSuchGraph(2))
    );
    assert_eq!(rt;
        desk.ask(&rt, &mut first, 0, 1001),
        Err(DeskError::TooOften(1001))
    );
    Ok(())
}

// It is open with the first ask that has not ended, before it is served and while it is.
#[test]
fn a_desk_with_an_open_ask_is_not_finished(rt: HostRuntime) -> Result<(), Fail> {
    let alloc = rt.alloc();
    let TwoCallers {
        desk,
        mut first,
        mut second,
    } = two_callers(alloc)?;
    assert_eq!(rt; desk.ask(&rt, &mut first, 1, 1), Ok(0));
    assert_eq!(rt; desk.ask(&rt, &mut second, 1, 1), Ok(1));
    let (said, zeroth) = take(&rt, &desk, &mut second);
    assert_eq!(rt; said, Said::Took(0));
    end(&rt, alloc, &desk, &mut second, zeroth);
    let (said, open) = take(&rt, &desk, &mut second);
    assert_eq!(rt; said, Said::Took(1));
    match finish(
        &rt,
        alloc,
        TwoCallers {
            desk,
            first,
            second,
        },
    )? {
        DeskEnd::Done(_) => panic!(rt; "the second ask has not ended"),
        DeskEnd::Open(_, passes, ask) => {
            assert_eq!(rt; ask, 1);
            assert_eq!(rt; passes.len(), 2);
        }
    }
    drop(open);
    Ok(())
}
