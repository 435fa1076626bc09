// Runs of a machine, and the judge's walk over a journal.
use crate::clock::{micros_since, nanos_since};
use crate::nets::{NetKind, net_of};
use journal_rules::{Cause, Journal, MAX_LIMIT};
use legal_run::{Verdict, judge};
use net_machine::{Machine, MachineError};
use std::alloc::AllocError;
use std::io;
use std::sync::Arc;
use std::time::Instant;
use task_graph::Net;

// Nets that are led to rest: how many tasks and edges each has.
const NETS: [(NetKind, u32, u32, &str); 2] = [
    (
        NetKind::Later,
        10_000,
        100_000,
        "10,000 tasks, 100,000 edges",
    ),
    (
        NetKind::Join,
        100_000,
        99_999,
        "100,000 tasks that all precede the last",
    ),
];

// How many tasks a loop has behind its source.
const CHOICES: u32 = 1_000;

// How many starts the run of a loop has, each with its end.
const STARTS: u32 = 1_500_000;

/// Prints how long runs and the judge take.
pub fn measure(rt: &HostRuntime) -> io::Result<()> {
    for (kind, tasks, edges, name) in &NETS {
        let net = net_of(rt.alloc(), *kind, *tasks, *edges)?;
        measure_net(rt, &net, name)?;
    }
    let tasks = CHOICES + 1;
    let net = net_of(rt.alloc(), NetKind::Loop, tasks, tasks)?;
    measure_loop(rt, &net)
}

fn machine_on(rt: &HostRuntime, net: &Arc<Net>) -> io::Result<Machine> {
    Machine::new(rt.alloc(), Arc::try_clone(net)?, MAX_LIMIT).map_err(|_| AllocError.into())
}

// Measures how long a net is led to rest.
fn measure_net(rt: &HostRuntime, net: &Arc<Net>, name: &str) -> io::Result<()> {
    let mut machine = machine_on(rt, net)?;
    lead_to_rest(rt, &mut machine, net, name)
}

// Leads the machine to rest, and prints how long it took.
fn lead_to_rest(rt: &HostRuntime, machine: &mut Machine, net: &Net, name: &str) -> io::Result<()> {
    let begun = Instant::now(rt)?;
    run_in_order(machine, net).map_err(|_| AllocError)?;
    let micros = micros_since(rt, begun)?;
    println!(rt; "{name}: led to rest in {micros} us, {}", machine.at_rest())
}

// Starts and ends each task in the order of their numbers.
fn run_in_order(machine: &mut Machine, net: &Net) -> Result<(), MachineError> {
    for task in 0..net.tasks().len() as u32 {
        let cause = if net.is_source(task) {
            Cause::Source
        } else {
            Cause::Strong
        };
        let start = machine.start(task, cause)?;
        machine.end(start, net.out_edges(task), false)?;
    }
    Ok(())
}

// Measures a start of a condition with its end, and the judge on the journal of many.
fn measure_loop(rt: &HostRuntime, net: &Arc<Net>) -> io::Result<()> {
    let mut machine = machine_on(rt, net)?;
    go_round(rt, &mut machine)?;
    judge_journal(rt, net, machine.journal())
}

// Goes round the loop, and prints how long a start with its end took.
fn go_round(rt: &HostRuntime, machine: &mut Machine) -> io::Result<()> {
    let begun = Instant::now(rt)?;
    turn(machine).map_err(|_| AllocError)?;
    let nanos = nanos_since(rt, begun)? / STARTS as u64;
    println!(rt; "1,000 Choice tasks in a loop: {nanos} ns a start with its end")
}

// Judges the journal of the loop, and prints how long it took.
fn judge_journal(rt: &HostRuntime, net: &Net, journal: &Journal) -> io::Result<()> {
    let begun = Instant::now(rt)?;
    let is_legal = matches!(
        judge(rt.alloc(), net, MAX_LIMIT, journal),
        Ok(Verdict::Legal)
    );
    let micros = micros_since(rt, begun)?;
    println!(rt; "its journal of 3,000,000 entries: judged in {micros} us, {is_legal}")
}

// All starts, each with its end: the source, its successor, and then each Choice task by the edge of the one before it.
// Task k has edge k.
fn turn(machine: &mut Machine) -> Result<(), MachineError> {
    for done in 0..STARTS {
        let task = if done == 0 {
            0
        } else {
            (done - 1) % CHOICES + 1
        };
        let cause = match (done, task) {
            (0, _) => Cause::Source,
            (1, _) => Cause::Strong,
            (_, 1) => Cause::Weak(CHOICES),
            _ => Cause::Weak(task.saturating_sub(1)),
        };
        let start = machine.start(task, cause)?;
        machine.end(start, &[task], false)?;
    }
    Ok(())
}
