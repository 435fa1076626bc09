// Small runs, step by step, with the answers that were worked out by hand.
use crate::nets::{CHOICE, MANY, NetCase, PLAIN, PUTTER, TAKER, built};
use crate::steps::{Step, ask, judged};
use journal_rules::{Cause, DropWhy, Why};
use legal_run::Verdict;
use net_machine::{Machine, MachineError};
use std::alloc::Global;
use std::process::Abort;
use std::sync::Arc;
use std::test::Fail;
use task_graph::Net;

const SOURCE: Cause = Cause::Source;

const STRONG: Cause = Cause::Strong;

const HALTED: DropWhy = DropWhy::Halted;

const STUCK: DropWhy = DropWhy::Stuck(0);

type StepAnswer = Result<u64, MachineError>;

const NOT_RELEASED: StepAnswer = Err(MachineError::NotReleased);

const NOT_OPEN: StepAnswer = Err(MachineError::NotOpen);

const NOT_CHOSEN: StepAnswer = Err(MachineError::NotChosen);

const NO_SUCH: StepAnswer = Err(MachineError::NoSuch);

const AFTER_STUCK: StepAnswer = Err(MachineError::AfterStuck);

// A net and how many starts its run may have, what is answered to each step, and whether the machine is at rest then.
#[derive(Clone, Copy)]
struct SmallRun<'r> {
    net: NetCase<'r>,
    limit: u64,
    steps: &'r [(Step<'r>, StepAnswer)],
    is_at_rest: bool,
}

const RUNS: [SmallRun<'static>; 16] = [
    // No task at all.
    SmallRun {
        net: NetCase {
            tasks: &[],
            edges: &[],
            rings: &[],
        },
        limit: 10,
        steps: &[(Step::Start(0, SOURCE), NO_SUCH)],
        is_at_rest: true,
    },
    // Task 1 follows task 0.
    SmallRun {
        net: NetCase {
            tasks: &[PLAIN; 2],
            edges: &[(0, 1)],
            rings: &[],
        },
        limit: 10,
        steps: &[
            (Step::Start(1, STRONG), NOT_RELEASED),
            (Step::Start(0, SOURCE), Ok(0)),
            (Step::Start(0, SOURCE), NOT_RELEASED),
            (Step::Start(1, STRONG), NOT_RELEASED),
            (Step::End(0, &[0]), Ok(1)),
            (Step::End(0, &[0]), NOT_OPEN),
            (Step::Start(1, SOURCE), NOT_RELEASED),
            (Step::Start(1, STRONG), Ok(2)),
            (Step::End(2, &[0]), NOT_CHOSEN),
            (Step::End(1, &[]), NOT_OPEN),
            (Step::End(2, &[]), Ok(3)),
            (Step::Start(1, STRONG), NOT_RELEASED),
        ],
        is_at_rest: true,
    },
    // An end that gives nothing releases nothing, and the run is over.
    SmallRun {
        net: NetCase {
            tasks: &[PLAIN; 2],
            edges: &[(0, 1)],
            rings: &[],
        },
        limit: 10,
        steps: &[
            (Step::Start(0, SOURCE), Ok(0)),
            (Step::End(0, &[]), Ok(1)),
            (Step::Start(1, STRONG), NOT_RELEASED),
        ],
        is_at_rest: true,
    },
    // The second start would be one too many.
    SmallRun {
        net: NetCase {
            tasks: &[PLAIN; 2],
            edges: &[(0, 1)],
            rings: &[],
        },
        limit: 1,
        steps: &[
            (Step::Start(0, SOURCE), Ok(0)),
            (Step::End(0, &[0]), Ok(1)),
            (Step::Start(1, SOURCE), NOT_RELEASED),
            (Step::Start(1, STRONG), Err(MachineError::AtLimit)),
        ],
        is_at_rest: false,
    },
    // Tasks 1 and 2 follow task 0, and task 3 follows both.
    SmallRun {
        net: NetCase {
            tasks: &[PLAIN; 4],
            edges: &[(0, 1), (0, 2), (1, 3), (2, 3)],
            rings: &[],
        },
        limit: 10,
        steps: &[
            (Step::Start(0, SOURCE), Ok(0)),
            (Step::End(0, &[1, 0]), NOT_CHOSEN),
            (Step::End(0, &[1]), NOT_CHOSEN),
            (Step::End(0, &[0, 1]), Ok(1)),
            (Step::Start(2, STRONG), Ok(2)),
            (Step::Start(1, STRONG), Ok(3)),
            (Step::End(2, &[3]), Ok(4)),
            (Step::Start(3, STRONG), NOT_RELEASED),
            (Step::End(3, &[3]), NOT_CHOSEN),
            (Step::End(3, &[2]), Ok(5)),
            (Step::Start(3, STRONG), Ok(6)),
            (Step::End(6, &[]), Ok(7)),
        ],
        is_at_rest: true,
    },
    // The last task of a diamond is the fourth start, and only three are allowed.
    SmallRun {
        net: NetCase {
            tasks: &[PLAIN; 4],
            edges: &[(0, 1), (0, 2), (1, 3), (2, 3)],
            rings: &[],
        },
        limit: 3,
        steps: &[
            (Step::Start(0, SOURCE), Ok(0)),
            (Step::End(0, &[0, 1]), Ok(1)),
            (Step::Start(1, STRONG), Ok(2)),
            (Step::Start(2, STRONG), Ok(3)),
            (Step::End(2, &[2]), Ok(4)),
            (Step::End(3, &[3]), Ok(5)),
            (Step::Start(3, STRONG), Err(MachineError::AtLimit)),
        ],
        is_at_rest: false,
    },
    // Two edges lead from task 0 to task 1, which is released once.
    SmallRun {
        net: NetCase {
            tasks: &[PLAIN; 2],
            edges: &[(0, 1), (0, 1)],
            rings: &[],
        },
        limit: 10,
        steps: &[
            (Step::Start(0, SOURCE), Ok(0)),
            (Step::End(0, &[0]), NOT_CHOSEN),
            (Step::End(0, &[0, 1]), Ok(1)),
            (Step::Start(1, STRONG), Ok(2)),
            (Step::Start(1, STRONG), NOT_RELEASED),
            (Step::End(2, &[]), Ok(3)),
        ],
        is_at_rest: true,
    },
    // Two sources precede task 2.
    SmallRun {
        net: NetCase {
            tasks: &[PLAIN; 3],
            edges: &[(0, 2), (1, 2)],
            rings: &[],
        },
        limit: 10,
        steps: &[
            (Step::Start(1, SOURCE), Ok(0)),
            (Step::Start(0, SOURCE), Ok(1)),
            (Step::Start(2, SOURCE), NOT_RELEASED),
            (Step::End(0, &[1]), Ok(2)),
            (Step::Start(2, STRONG), NOT_RELEASED),
            (Step::End(1, &[0]), Ok(3)),
            (Step::Start(2, STRONG), Ok(4)),
            (Step::End(4, &[]), Ok(5)),
        ],
        is_at_rest: true,
    },
    // Tasks that wait for each other never begin, so that the run is over before its first step.
    SmallRun {
        net: NetCase {
            tasks: &[PLAIN; 2],
            edges: &[(0, 1), (1, 0)],
            rings: &[],
        },
        limit: 10,
        steps: &[
            (Step::Start(0, SOURCE), NOT_RELEASED),
            (Step::Start(0, STRONG), NOT_RELEASED),
            (Step::Start(1, STRONG), NOT_RELEASED),
        ],
        is_at_rest: true,
    },
    // Nor does a task that waits for itself; task 1 is beside it.
    SmallRun {
        net: NetCase {
            tasks: &[PLAIN; 2],
            edges: &[(0, 0)],
            rings: &[],
        },
        limit: 10,
        steps: &[
            (Step::Start(0, SOURCE), NOT_RELEASED),
            (Step::Start(0, STRONG), NOT_RELEASED),
            (Step::Start(1, SOURCE), Ok(0)),
            (Step::End(0, &[]), Ok(1)),
        ],
        is_at_rest: true,
    },
    // Nor do tasks 1 and 2, of which one waits for task 0, too.
    SmallRun {
        net: NetCase {
            tasks: &[PLAIN; 3],
            edges: &[(0, 1), (1, 2), (2, 1)],
            rings: &[],
        },
        limit: 10,
        steps: &[
            (Step::Start(0, SOURCE), Ok(0)),
            (Step::End(0, &[0]), Ok(1)),
            (Step::Start(1, STRONG), NOT_RELEASED),
            (Step::Start(2, STRONG), NOT_RELEASED),
        ],
        is_at_rest: true,
    },
    // After a fault the other releases are dropped, each once.
    SmallRun {
        net: NetCase {
            tasks: &[PLAIN; 2],
            edges: &[],
            rings: &[],
        },
        limit: 10,
        steps: &[
            (Step::Start(0, SOURCE), Ok(0)),
            (Step::Drop(1, SOURCE, HALTED), Err(MachineError::NotHalted)),
            (Step::Fault(0, Why::Long(20_000_000)), Ok(1)),
            (Step::Drop(1, SOURCE, HALTED), Ok(2)),
            (Step::Drop(1, SOURCE, HALTED), NOT_RELEASED),
            (Step::Start(1, SOURCE), NOT_RELEASED),
        ],
        is_at_rest: true,
    },
    // Task 1 chooses one edge of two, task 2 some of two, and task 3 takes the one unit. Each number that the net
    // hasn't is refused, each choice of edges that the shape of the task doesn't allow, and each entry after a drop for
    // want of a unit.
    SmallRun {
        net: NetCase {
            tasks: &[PLAIN, CHOICE, MANY, TAKER],
            edges: &[(0, 1), (0, 2), (1, 3), (1, 3), (2, 3), (2, 3)],
            rings: &[],
        },
        limit: 10,
        steps: &[
            (Step::Start(4, SOURCE), NO_SUCH),
            (Step::Start(0, Cause::Weak(6)), NO_SUCH),
            (Step::Drop(4, SOURCE, HALTED), NO_SUCH),
            (Step::Drop(0, Cause::Weak(6), HALTED), NO_SUCH),
            (Step::Drop(0, SOURCE, DropWhy::Stuck(1)), NO_SUCH),
            (Step::End(0, &[6]), NO_SUCH),
            (Step::Fault(0, Why::OverRelease(1)), NO_SUCH),
            (Step::Start(0, SOURCE), Ok(0)),
            (Step::End(0, &[2]), NOT_CHOSEN),
            (Step::End(0, &[0, 0]), NOT_CHOSEN),
            (Step::End(0, &[1, 0]), NOT_CHOSEN),
            (Step::End(0, &[0, 1]), Ok(1)),
            (Step::Start(1, STRONG), Ok(2)),
            (Step::End(2, &[4]), NOT_CHOSEN),
            (Step::End(2, &[2, 2]), NOT_CHOSEN),
            (Step::End(2, &[2, 3]), NOT_CHOSEN),
            (Step::End(2, &[3]), Ok(3)),
            (Step::Start(2, STRONG), Ok(4)),
            (Step::End(4, &[4, 3]), NOT_CHOSEN),
            (Step::End(4, &[4, 4]), NOT_CHOSEN),
            (Step::End(4, &[5, 4]), Ok(5)),
            (Step::Start(3, Cause::Weak(3)), Ok(6)),
            (Step::End(6, &[]), Ok(7)),
            (Step::Drop(3, Cause::Weak(4), STUCK), Ok(8)),
            (Step::Start(3, Cause::Weak(5)), AFTER_STUCK),
            (Step::End(6, &[]), AFTER_STUCK),
            (Step::Fault(6, Why::Inner), AFTER_STUCK),
            (Step::Drop(3, Cause::Weak(5), DropWhy::Limit), AFTER_STUCK),
            (Step::Drop(3, Cause::Weak(5), STUCK), Ok(9)),
        ],
        is_at_rest: true,
    },
    // Task 0 takes the one unit, task 1 after it puts it back, and task 2 takes it.
    SmallRun {
        net: NetCase {
            tasks: &[TAKER, PUTTER, TAKER],
            edges: &[(0, 1)],
            rings: &[],
        },
        limit: 10,
        steps: &[
            (Step::Start(0, SOURCE), Ok(0)),
            (Step::Drop(2, SOURCE, STUCK), Err(MachineError::NotStuck)),
            (Step::End(0, &[0]), Ok(1)),
            (Step::Start(2, SOURCE), Err(MachineError::NoUnit(0))),
            (Step::Start(1, STRONG), Ok(2)),
            (
                Step::Fault(2, Why::OverRelease(0)),
                Err(MachineError::NotOver),
            ),
            (Step::End(2, &[]), Ok(3)),
            (Step::Start(2, SOURCE), Ok(4)),
            (Step::End(4, &[]), Ok(5)),
        ],
        is_at_rest: true,
    },
    // Two tasks take the one unit, and none puts it back.
    SmallRun {
        net: NetCase {
            tasks: &[TAKER; 2],
            edges: &[],
            rings: &[],
        },
        limit: 10,
        steps: &[
            (Step::Start(0, SOURCE), Ok(0)),
            (Step::End(0, &[]), Ok(1)),
            (Step::Drop(1, SOURCE, HALTED), Err(MachineError::NotHalted)),
            (Step::Drop(1, SOURCE, DropWhy::Stuck(1)), NO_SUCH),
            (Step::Drop(1, SOURCE, STUCK), Ok(2)),
            (Step::Start(1, SOURCE), AFTER_STUCK),
        ],
        is_at_rest: true,
    },
    // The one task puts a unit that nobody took.
    SmallRun {
        net: NetCase {
            tasks: &[PUTTER],
            edges: &[],
            rings: &[],
        },
        limit: 10,
        steps: &[
            (Step::Start(0, SOURCE), Ok(0)),
            (Step::End(0, &[]), Err(MachineError::NothingOut(0))),
            (Step::Fault(0, Why::OverRelease(1)), NO_SUCH),
            (Step::Fault(0, Why::OverRelease(0)), Ok(1)),
        ],
        is_at_rest: true,
    },
];

#[test]
fn steps_are_answered_as_worked_out(rt: HostRuntime) -> Result<(), Fail> {
    check_runs(&rt, rt.alloc(), &RUNS)
}

// Each of these runs is answered as it says.
fn check_runs(rt: &impl Abort, alloc: Global, runs: &[SmallRun<'_>]) -> Result<(), Fail> {
    for (number, run) in runs.iter().enumerate() {
        assert!(rt; is_answered(alloc, run)?, "run {number}");
    }
    Ok(())
}

// Whether the machine answers each step as the run says, and the judge says the same of the journal with that step.
fn is_answered(alloc: Global, run: &SmallRun<'_>) -> Result<bool, Fail> {
    let net = built(alloc, run.net)?;
    let mut machine = Machine::new(alloc, Arc::try_clone(&net)?, run.limit)?;
    are_steps_answered(alloc, run, &mut machine, &net)
}

// Whether the machine and the judge answer each step so, and the machine is at rest then if the run says so.
fn are_steps_answered(
    alloc: Global,
    run: &SmallRun<'_>,
    machine: &mut Machine,
    net: &Net,
) -> Result<bool, Fail> {
    let mut taken = Vec::new(alloc);
    for (step, answer) in run.steps {
        let refused = refusal(alloc, net, run.limit, &mut taken, *step)?;
        if ask(machine, *step) != *answer || refused != answer.err() {
            return Ok(false);
        }
    }
    Ok(machine.at_rest() == run.is_at_rest)
}

// What the judge says against a step behind those that were taken. Where it says nothing, the step is taken too.
fn refusal<'r>(
    alloc: Global,
    net: &Net,
    limit: u64,
    taken: &mut Vec<Step<'r>>,
    step: Step<'r>,
) -> Result<Option<MachineError>, Fail> {
    taken.push(step)?;
    let refused = broken_rule_of(judged(alloc, net, limit, taken.as_slice())?);
    if refused.is_some() {
        taken.pop();
    }
    Ok(refused)
}

fn broken_rule_of(verdict: Verdict) -> Option<MachineError> {
    match verdict {
        Verdict::Breaks(_, broken) => Some(broken.into()),
        _ => None,
    }
}
