// Two callers that add 1,000 tasks each beside two workers.
use crate::judged::verdict_on;
use async_tasks::AsyncRun;
use async_trials::{AddTo, run_of_two_callers};
use legal_run::Verdict;
use std::test::Fail;

// How many tasks each caller adds.
const TASKS: u32 = 1000;

// Whether each task has the value of its place among its caller's: 1, 2 and so on.
fn has_chains(run: &AsyncRun<AddTo>) -> bool {
    let mut values = [0u64; 2];
    for row in &run.adds {
        let Some(value) = values.get_mut(row.caller as usize) else {
            return false;
        };
        *value = value.wrapping_add(1);
        if !run.value(row.id).is_some_and(|found| **found == *value) {
            return false;
        }
    }
    values == [TASKS as u64; 2]
}

#[test]
fn two_callers_add_beside_two_workers(rt: HostRuntime) -> Result<(), Fail> {
    let Some(run) = run_of_two_callers(&rt, rt.alloc(), TASKS)? else {
        panic!(rt; "a task has no end")
    };
    assert!(rt; has_chains(&run));
    assert_eq!(rt; verdict_on(rt.alloc(), &run)?, Verdict::Complete);
    Ok(())
}
