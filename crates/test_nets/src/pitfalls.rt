// The pitfall check: all nets of at most three tasks and four edges, each looked at by plain loops too, and a ring of
// many tasks.
ghost use Rattle.std.specs.Prelude.{IfOk, IsTrue};
ghost use Rattle.pitfall_check.specs.Pitfalls.{BeginsWithoutTokens};

use crate::nets::{CHOICE, MANY, NetCase, PLAIN, Task, built};
use crate::walks::{count_into, edges_of_kind, has_walk, is_reached};
use outside_io::{List, NoMemory};
use pitfall_check::{Finding, check};
use std::alloc::Global;
use std::test::Fail;
use task_graph::{BuildError, Net, NetBuilder, Shape};

// The tasks that differ for the check.
const TASKS: [Task; 3] = [PLAIN, CHOICE, MANY];

// How many lists of up to four edges there are among three tasks, by their lengths.
const LISTS: [u32; 5] = [1, 9, 81, 729, 6_561];

// How many rows of up to three tasks there are, by their lengths, and how many nets of these and of up to four edges.
const ROWS: [(usize, u32); 4] = [(1, 1), (3, 3 * 5), (9, 9 * 341), (27, 27 * 7_381)];

#[test]
fn small_nets_have_the_findings_of_plain_loops(rt: HostRuntime) -> Result<(), Fail> {
    for (tasks, (codes, wanted)) in ROWS.iter().enumerate() {
        let mut nets = 0u32;
        for code in 0..*codes {
            let all = [TASKS[code % 3], TASKS[code / 3 % 3], TASKS[code / 9 % 3]];
            let tasks = all.get(..tasks).unwrap_or(&all);
            nets = nets.saturating_add(count_as_wanted(rt.alloc(), tasks)?);
        }
        assert!(rt; nets == *wanted, "{tasks} tasks: {nets} nets");
    }
    Ok(())
}

// Of the nets of these tasks and of all lists of edges among them, how many have the findings of plain loops.
fn count_as_wanted(alloc: Global, tasks: &[Task]) -> Result<u32, Fail> {
    let mut nets = 0u32;
    for (length, lists) in LISTS.iter().enumerate() {
        for code in 0..*lists {
            let all = edges_of(code);
            let rows = NetCase {
                tasks,
                edges: all.get(..length).unwrap_or(&all),
                rings: &[],
            };
            if are_among(rows.edges, tasks.len()) && is_as_wanted(alloc, rows)? {
                nets = nets.saturating_add(1);
            }
        }
    }
    Ok(nets)
}

// The four edges among three tasks that a number encodes.
fn edges_of(code: u32) -> [(u32, u32); 4] {
    [
        (code % 9 / 3, code % 3),
        (code / 9 % 9 / 3, code / 9 % 3),
        (code / 81 % 9 / 3, code / 81 % 3),
        (code / 729 % 9 / 3, code / 729 % 3),
    ]
}

fn are_among(edges: &[(u32, u32)], tasks: usize) -> bool {
    for (from, to) in edges {
        if *from as usize >= tasks || *to as usize >= tasks {
            return false;
        }
    }
    true
}

fn is_as_wanted(alloc: Global, rows: NetCase<'_>) -> Result<bool, Fail> {
    let found = findings_of(alloc, &*built(alloc, rows)?)?;
    let wanted = wanted_of(alloc, rows)?;
    Ok(found.as_slice() == wanted.as_slice())
}

// The findings by the definition: whether there is no source, and then the findings of each kind by their tasks.
fn wanted_of(alloc: Global, rows: NetCase<'_>) -> Result<Vec<Finding>, NoMemory> {
    let edges = rows.edges;
    let strong = edges_of_kind(alloc, rows, false)?;
    let weak = edges_of_kind(alloc, rows, true)?;
    let (strong, weak) = (strong.as_slice(), weak.as_slice());
    let tasks = [0u32, 1, 2];
    let tasks = tasks.get(..rows.tasks.len()).unwrap_or(&tasks);
    let mut wanted = Vec::new(alloc);
    if !tasks.is_empty() && !has_source(edges, tasks) {
        wanted.push(Finding::NoSource)?;
    }
    for kind in 0..4u32 {
        for task in tasks {
            let finding = match kind {
                0 if is_mixed(strong, weak, *task) => Finding::Mixed(*task),
                1 if count_into(weak, *task) > 1 => Finding::ManyConditions(*task),
                2 if has_walk(strong, *task, *task, 3) => Finding::StrongCycle(*task),
                3 if !is_reached(edges, tasks, *task) => Finding::NeverReached(*task),
                _ => continue,
            };
            wanted.push(finding)?;
        }
    }
    Ok(wanted)
}

fn has_source(edges: &[(u32, u32)], tasks: &[u32]) -> bool {
    for task in tasks {
        if count_into(edges, *task) == 0 {
            return true;
        }
    }
    false
}

fn is_mixed(strong: &[(u32, u32)], weak: &[(u32, u32)], task: u32) -> bool {
    count_into(strong, task) > 0 && count_into(weak, task) > 0
}

/// The findings of a net, or none where one of its edges begins with a token.
fn findings_of(alloc: Global, net: &Net) -> Result<List<Finding>, NoMemory> {
    if begins_without_tokens(net) {
        check(alloc, net)
    } else {
        Ok(List::new(alloc))
    }
}

fn begins_without_tokens(net: &Net) -> bool
    ensures { IsTrue result → BeginsWithoutTokens net.now }
{
    net.edges().iter().all(|edge| !edge.start)
}

const MILLION: u32 = 1_000_000;

// Each task leads to the next one, and the last to the first.
fn ring(alloc: Global) -> Result<Net, BuildError> {
    let mut builder = NetBuilder::new(alloc);
    add_ring(alloc, &mut builder)?;
    Ok(builder.finish())
}

fn add_ring(alloc: Global, builder: &mut NetBuilder) -> Result<(), BuildError> {
    for _ in 0..MILLION {
        builder.task(Shape::Plain, List::new(alloc), List::new(alloc))?;
    }
    for task in 0..MILLION {
        builder.edge(task, (task + 1) % MILLION, false)?;
    }
    Ok(())
}

// Whether each task of a ring is found to be on a cycle and never reached.
fn is_ring_found(alloc: Global) -> Result<bool, Fail> {
    let findings = findings_of(alloc, &ring(alloc)?)?;
    Ok(are_of_ring(findings.as_slice()))
}

fn are_of_ring(findings: &[Finding]) -> bool {
    let (count, last) = (MILLION as usize, MILLION - 1);
    findings.len() == 1 + 2 * count
        && findings.first() == Some(&Finding::NoSource)
        && findings.get(count) == Some(&Finding::StrongCycle(last))
        && findings.last() == Some(&Finding::NeverReached(last))
}

#[test]
fn a_million_tasks_are_checked(rt: HostRuntime) -> Result<(), Fail> {
    assert!(rt; is_ring_found(rt.alloc())?);
    Ok(())
}
