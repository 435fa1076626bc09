// A book of sums by one caller and one worker.
use crate::alone::{Alone, Outcome};
use crate::judged::{printed, verdict_on};
use async_tasks::{AsyncRun, AsyncStep, TaskEvent};
use async_trials::AddTo;
use legal_run::Verdict;
use std::test::Fail;

const EVENTS: [TaskEvent; 6] = [
    TaskEvent::Started(0),
    TaskEvent::Ended(0),
    TaskEvent::Started(1),
    TaskEvent::Ended(1),
    TaskEvent::Started(2),
    TaskEvent::Ended(2),
];

const JOURNAL: &str = "flow journal 2
start 0 source -
end 0 0,1 plain
start 1 strong 1
end 2 2,3 plain
start 2 strong 1,3,3
end 4 - plain
";

// Whether each of these tasks has its value.
fn has_values(run: &AsyncRun<AddTo>, values: &[(u32, u64)]) -> bool {
    for (task, value) in values {
        if !run.value(*task).is_some_and(|found| **found == *value) {
            return false;
        }
    }
    true
}

// 1 after nothing, 2 after the first, 4 after the first and twice the second.
#[test]
fn each_sum_finds_the_values_of_the_tasks_it_names(rt: HostRuntime) -> Result<(), Fail> {
    let mut alone = Alone::of_three_sums(&rt, rt.alloc())?;
    for task in 0..3 {
        assert_eq!(rt; alone.step(&rt)?, AsyncStep::Ran(task));
    }
    assert_eq!(rt; alone.step(&rt)?, AsyncStep::Empty);
    let Outcome::Done(run) = alone.finish(&rt, rt.alloc())? else {
        panic!(rt; "a task has no end")
    };
    assert!(rt; has_values(&run, [(0, 1), (1, 3), (2, 11)].as_slice()));
    assert!(rt; run.events.as_slice() == EVENTS.as_slice());
    assert!(rt; printed(rt.alloc(), &run)?.bytes() == JOURNAL.as_bytes());
    assert_eq!(rt; verdict_on(rt.alloc(), &run)?, Verdict::Complete);
    Ok(())
}

// 1 after nothing, two of 1 after the first, and 1 after the first, the second, the first again and the third: the end
// of the first makes two ready.
#[test]
fn all_that_one_end_makes_ready_are_run(rt: HostRuntime) -> Result<(), Fail> {
    let mut alone = Alone::of_a_fork(&rt, rt.alloc())?;
    for _step in 0..4 {
        assert!(rt; alone.step(&rt)? != AsyncStep::Empty);
    }
    assert_eq!(rt; alone.step(&rt)?, AsyncStep::Empty);
    let Outcome::Done(run) = alone.finish(&rt, rt.alloc())? else {
        panic!(rt; "a task has no end")
    };
    assert!(rt; has_values(&run, [(0, 1), (1, 2), (2, 2), (3, 7)].as_slice()));
    assert_eq!(rt; verdict_on(rt.alloc(), &run)?, Verdict::Complete);
    Ok(())
}
