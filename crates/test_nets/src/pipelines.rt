// The nets of pipelines and the orders of their tokens, with the answers that were worked out by hand.
use outside_io::{List, NoMemory};
use pipe_lines::{
    DeferRow, Gate, MAX_TOKENS, Passed, PipeError, PipeSpec, along_pipes, are_defer_rows,
    pass_order, pipe_net,
};
use std::alloc::Global;
use std::process::Abort;
use std::test::Fail;
use task_graph::Net;

// Lines and pipes, and how many tasks and edges their net has, or why they are refused.
struct PipeCase {
    lines: u32,
    serial: &'static [bool],
    answer: Result<(usize, usize), PipeError>,
}

const PIPES: [PipeCase; 7] = [
    PipeCase {
        lines: 2,
        serial: &[true, false, true],
        answer: Ok((6, 10)),
    },
    PipeCase {
        lines: 64,
        serial: &[true; 32],
        answer: Ok((2048, 4096)),
    },
    PipeCase {
        lines: 0,
        serial: &[],
        answer: Err(PipeError::NoLines),
    },
    PipeCase {
        lines: 65,
        serial: &[],
        answer: Err(PipeError::NoPipes),
    },
    PipeCase {
        lines: 65,
        serial: &[false, true],
        answer: Err(PipeError::FirstParallel),
    },
    PipeCase {
        lines: 65,
        serial: &[true; 33],
        answer: Err(PipeError::TooManyLines),
    },
    PipeCase {
        lines: 64,
        serial: &[true; 33],
        answer: Err(PipeError::TooManyPipes),
    },
];

#[test]
fn pipelines_have_nets_or_are_refused(rt: HostRuntime) -> Result<(), Fail> {
    for case in &PIPES {
        let spec = PipeSpec {
            lines: case.lines,
            serial: List::from_slice(rt.alloc(), case.serial)?,
        };
        check_pipes(&rt, rt.alloc(), case, &spec)?;
    }
    Ok(())
}

// The pipes have the net that was worked out, or are refused.
fn check_pipes(
    rt: &impl Abort,
    alloc: Global,
    case: &PipeCase,
    spec: &PipeSpec,
) -> Result<(), Fail> {
    let tags = along_pipes(alloc, spec)?.len();
    match pipe_net(alloc, spec) {
        Ok(net) => check_counts(rt, case, &net, tags),
        Err(error) => assert!(rt; case.answer == Err(error)),
    }
    Ok(())
}

// The net has as many tasks and edges as were worked out, and as many edges as there are tags.
fn check_counts(rt: &impl Abort, case: &PipeCase, net: &Net, tags: usize) {
    assert!(rt; case.answer == Ok((net.tasks().len(), tags)));
    assert_eq!(rt; net.edges().len(), tags);
}

// How many tokens there are, and of those that are deferred the targets; which tokens pass, and what is behind the
// last.
struct OrderCase {
    tokens: u64,
    rows: &'static [(u64, &'static [u64])],
    passed: &'static [u64],
    end: Passed,
}

const ORDERS: [OrderCase; 7] = [
    OrderCase {
        tokens: 5,
        rows: &[(1, &[3]), (2, &[1])],
        passed: &[0, 3, 1, 2, 4],
        end: Passed::Stop,
    },
    // 1 and 2 are freed by 3, and 0 by 1.
    OrderCase {
        tokens: 5,
        rows: &[(0, &[1]), (1, &[3]), (2, &[3])],
        passed: &[3, 1, 2, 0, 4],
        end: Passed::Stop,
    },
    // It waits for each of its targets, of which one is named twice.
    OrderCase {
        tokens: 4,
        rows: &[(0, &[2, 1, 2])],
        passed: &[1, 2, 0, 3],
        end: Passed::Stop,
    },
    OrderCase {
        tokens: 3,
        rows: &[(1, &[1])],
        passed: &[0, 2],
        end: Passed::Unmet(1),
    },
    OrderCase {
        tokens: 3,
        rows: &[(1, &[9]), (7, &[0])],
        passed: &[0, 2],
        end: Passed::Unmet(1),
    },
    // In a circle.
    OrderCase {
        tokens: 5,
        rows: &[(1, &[3]), (3, &[1])],
        passed: &[0, 2, 4],
        end: Passed::Unmet(1),
    },
    OrderCase {
        tokens: 0,
        rows: &[],
        passed: &[],
        end: Passed::Stop,
    },
];

#[test]
fn tokens_pass_in_their_order(rt: HostRuntime) -> Result<(), Fail> {
    for case in &ORDERS {
        let rows = rows_of(rt.alloc(), case.rows)?;
        check_order(&rt, rt.alloc(), case, rows.as_slice())?;
    }
    Ok(())
}

// By these rows the tokens have the order that was worked out, and a gate lets them pass in it.
fn check_order(
    rt: &impl Abort,
    alloc: Global,
    case: &OrderCase,
    rows: &[DeferRow],
) -> Result<(), Fail> {
    assert!(rt; case.tokens <= MAX_TOKENS && are_defer_rows(rows));
    let order = pass_order(alloc, case.tokens, rows)?;
    assert_eq!(rt; order.passed.as_slice(), case.passed);
    let mut gate = Gate::new(alloc, case.tokens, rows)?;
    check_gate(rt, case, &mut gate)
}

// The gate lets the tokens pass that were worked out, and so does a copy at its end.
fn check_gate(rt: &impl Abort, case: &OrderCase, gate: &mut Gate) -> Result<(), Fail> {
    for token in case.passed {
        assert!(rt; gate.pass() == Passed::Token(*token));
    }
    let mut copy = gate.copy()?;
    assert!(rt; copy.pass() == case.end && gate.pass() == case.end);
    Ok(())
}

// Rows of tokens with their targets.
fn rows_of(alloc: Global, rows: &[(u64, &[u64])]) -> Result<List<DeferRow>, NoMemory> {
    let mut made = List::new(alloc);
    for (token, to) in rows {
        let to = List::from_slice(alloc, to)?;
        made.push(DeferRow { token: *token, to })?;
    }
    Ok(made)
}
