// What a book refuses.
use crate::alone::{Alone, Outcome};
use async_tasks::AsyncStep;
use async_trials::Refused;
use std::test::Fail;

// Of three sums: after a task that isn't there, and after as many tasks as an add may name.
#[test]
fn the_first_task_that_is_not_there_is_named(rt: HostRuntime) -> Result<(), Fail> {
    let mut alone = Alone::of_three_sums(&rt, rt.alloc())?;
    for (after, answer) in [
        (&[3u32] as &[u32], Err(Refused::NoSuch(3, 3))),
        (&[0, 7, 3], Err(Refused::NoSuch(7, 3))),
        (&[], Ok(3)),
        (&[3], Ok(4)),
        (&[0; 64], Ok(5)),
        (&[6; 64], Err(Refused::NoSuch(6, 6))),
    ] {
        assert_eq!(rt; alone.add(&rt, rt.alloc(), 1, after), answer);
    }
    Ok(())
}

// It goes on: the last task is run, and one that is added then.
#[test]
fn a_book_with_an_open_task_is_not_finished(rt: HostRuntime) -> Result<(), Fail> {
    let mut alone = Alone::of_three_sums(&rt, rt.alloc())?;
    alone.step(&rt)?;
    alone.step(&rt)?;
    let Outcome::Open(mut alone, task) = alone.finish(&rt, rt.alloc())? else {
        panic!(rt; "the third task has no end")
    };
    assert_eq!(rt; task, 2);
    assert_eq!(rt; alone.step(&rt)?, AsyncStep::Ran(2));
    assert_eq!(rt; alone.add(&rt, rt.alloc(), 5, &[2]), Ok(3));
    assert_eq!(rt; alone.step(&rt)?, AsyncStep::Ran(3));
    let Outcome::Done(run) = alone.finish(&rt, rt.alloc())? else {
        panic!(rt; "a task has no end")
    };
    assert!(rt; run.value(3).is_some_and(|found| **found == 16));
    Ok(())
}

#[test]
fn a_full_book_refuses_each_add(rt: HostRuntime) -> Result<(), Fail> {
    let mut alone = Alone::new(rt.alloc())?;
    for task in 0..100_000 {
        assert_eq!(rt; alone.add(&rt, rt.alloc(), 1, &[]), Ok(task));
    }
    assert_eq!(rt;
        alone.add(&rt, rt.alloc(), 1, &[]),
        Err(Refused::Full(100_000))
    );
    assert_eq!(rt;
        alone.add(&rt, rt.alloc(), 1, &[100_000]),
        Err(Refused::Full(100_000))
    );
    Ok(())
}
