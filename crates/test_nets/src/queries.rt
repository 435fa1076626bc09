// What a machine says of the steps to come, and what the judge says of those that were taken.
ghost use Rattle.std.specs.Prelude.{◌≡◌, ◌<◌, length};

use crate::nets::{CHOICE, NetCase, PLAIN, built};
use crate::steps::{Step, ask, judged};
use journal_rules::{Cause, Part};
use legal_run::{Break, Verdict};
use net_machine::{Machine, ReadyRelease};
use outside_io::NoMemory;
use std::alloc::Global;
use std::test::Fail;

// Task 0 begins a loop of task 1 and the Choice 2, which goes back by edge 3. Task 4 follows task 1, by edge 2, and
// the source 3.
const LOOP: NetCase<'static> = NetCase {
    tasks: &[PLAIN, PLAIN, CHOICE, PLAIN, PLAIN],
    edges: &[(0, 1), (1, 2), (1, 4), (2, 1), (3, 4)],
    rings: &[],
};

// Once through the loop.
const ROUND: [Step<'static>; 8] = [
    Step::Start(0, Cause::Source),
    Step::End(0, &[0]),
    Step::Start(1, Cause::Strong),
    Step::End(2, &[1, 2]),
    Step::Start(2, Cause::Strong),
    Step::End(4, &[3]),
    Step::Start(1, Cause::Weak(3)),
    Step::End(6, &[1, 2]),
];

// What the judge says of the round at a limit.
const VERDICTS: [(u64, Verdict); 2] = [
    (10, Verdict::Legal),
    (3, Verdict::Breaks(6, Break::OverLimit)),
];

const AT_FIRST: [ReadyRelease; 2] = [
    ReadyRelease {
        task: 0,
        cause: Cause::Source,
        times: 1,
    },
    ReadyRelease {
        task: 3,
        cause: Cause::Source,
        times: 1,
    },
];

const AFTER_ROUND: [ReadyRelease; 2] = [
    ReadyRelease {
        task: 2,
        cause: Cause::Strong,
        times: 1,
    },
    ReadyRelease {
        task: 3,
        cause: Cause::Source,
        times: 1,
    },
];

fn go_round(machine: &mut Machine)
    ensures { machine.new.net ≡ machine.old.net }
{
    for step in &ROUND {
        let _ = ask(machine, *step);
    }
}

// Whether these releases are left.
fn are_ready(machine: &Machine, expected: &[ReadyRelease]) -> Result<bool, NoMemory> {
    Ok(machine.ready()?.as_slice() == expected)
}

// Whether a start of a task by its strong edges, none of which is due, would find these parts.
fn waits_with(machine: &Machine, task: u32, expected: &[Part]) -> Result<bool, NoMemory>
    requires { task < length machine.now.net.tasks }
{
    let parts = machine.parts(task, Cause::Strong)?;
    Ok(machine.rounds(task) == 0 && parts.as_slice() == expected)
}

// Whether a machine of the loop says what was worked out.
fn is_led_round(alloc: Global) -> Result<bool, Fail> {
    let net = built(alloc, LOOP)?;
    if net.tasks().len() != 5 {
        return Ok(false);
    }
    let mut machine = Machine::new(alloc, net, 10)?;
    Ok(says_before_and_after(&mut machine)?)
}

// Whether the machine says before and after the round what was worked out: then task 4 has a token by one of its edges
// and none by the other.
fn says_before_and_after(machine: &mut Machine) -> Result<bool, NoMemory>
    requires { 4 < length machine.old.net.tasks }
{
    let begins = are_ready(machine, &AT_FIRST)?;
    go_round(machine);
    let goes_on = are_ready(machine, &AFTER_ROUND)?;
    let waits = waits_with(machine, 4, &[Part::From(7), Part::Nothing])?;
    Ok(begins && goes_on && waits)
}

#[test]
fn tokens_are_kept_for_a_task_that_waits(rt: HostRuntime) -> Result<(), Fail> {
    assert!(rt; is_led_round(rt.alloc())?);
    Ok(())
}

// Whether the judge says of the round what was worked out for each limit.
fn is_judged(alloc: Global) -> Result<bool, Fail> {
    let net = built(alloc, LOOP)?;
    for (limit, verdict) in &VERDICTS {
        if judged(alloc, &net, *limit, &ROUND)? != *verdict {
            return Ok(false);
        }
    }
    Ok(true)
}

#[test]
fn a_journal_is_judged_by_its_limit(rt: HostRuntime) -> Result<(), Fail> {
    assert!(rt; is_judged(rt.alloc())?);
    Ok(())
}
