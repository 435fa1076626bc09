// Two callers that ask beside two that serve, each by a thread.
use desk_trials::{Demand, run_of_callers};
use std::test::Fail;

const DEMAND: Demand = Demand {
    askers: 2,
    each: 50,
    rounds: 3,
    of_both: true,
};

#[test]
fn each_ask_of_two_threads_beside_two_others_is_served(rt: HostRuntime) -> Result<(), Fail> {
    let Some(run) = run_of_callers(&rt, rt.alloc(), DEMAND, 2)? else {
        panic!(rt; "an ask was refused or cut")
    };
    assert_eq!(rt; run.history.len(), 300);
    assert_eq!(rt; run.runs.len(), 100);
    assert!(rt; run.runs.as_slice().iter().all(|runs| runs.len() == 3));
    Ok(())
}
