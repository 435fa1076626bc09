// Every run of a few steps of small nets, with every next step tried at each of its states.
use crate::nets::{HOLDER, NetCase, PLAIN, TAKER, Task, Units, built};
use crate::steps::{Step, judged};
use journal_rules::{Cause, DropWhy, Why};
use legal_run::{Break, Verdict};
use outside_io::NoMemory;
use std::alloc::Global;
use std::sync::Arc;
use std::test::Fail;
use task_graph::{Net, Shape};

// How many steps a run takes at most.
const DEPTH: u8 = 5;

// The most starts of a run.
const LIMIT: u64 = 2;

type Rows<'r> = (&'r [Task], &'r [(u32, u32)], &'r [(u32, u32)]);

// The edges of a net, and its tasks beside the one that its row tells.
#[derive(Clone, Copy)]
enum Links {
    /// The task follows a source, and one that holds the unit follows it.
    Chain,
    /// The same where the first task begins with a token.
    BegunChain,
    /// The same two where the task may choose itself.
    Loop,
    BegunLoop,
    /// The task chooses among two edges to one that holds the unit.
    Pair,
    /// The same where one of the edges leads to itself, and it begins with a token.
    BegunPair,
    /// Another task that takes the unit is beside it.
    Beside,
}

// The nets: the shape of a task, what it does with the unit, and what is around it.
const NETS: [(Shape, Units, Links); 22] = [
    (Shape::Plain, Units::None, Links::Chain),
    (Shape::Plain, Units::Taken, Links::BegunChain),
    (Shape::Plain, Units::Put, Links::Chain),
    (Shape::Plain, Units::Held, Links::BegunChain),
    (Shape::Nested, Units::None, Links::BegunChain),
    (Shape::Nested, Units::Taken, Links::Chain),
    (Shape::Nested, Units::Put, Links::BegunChain),
    (Shape::Nested, Units::Held, Links::Chain),
    (Shape::Choice, Units::None, Links::Loop),
    (Shape::Choice, Units::Taken, Links::BegunLoop),
    (Shape::Choice, Units::Put, Links::Loop),
    (Shape::Choice, Units::Held, Links::BegunLoop),
    (Shape::Many, Units::None, Links::BegunLoop),
    (Shape::Many, Units::Taken, Links::Loop),
    (Shape::Many, Units::Put, Links::BegunLoop),
    (Shape::Many, Units::Held, Links::Loop),
    (Shape::Choice, Units::None, Links::Pair),
    (Shape::Choice, Units::Taken, Links::BegunPair),
    (Shape::Choice, Units::Put, Links::BegunPair),
    (Shape::Choice, Units::Held, Links::Pair),
    (Shape::Many, Units::None, Links::BegunPair),
    (Shape::Plain, Units::Taken, Links::Beside),
];

// Of how many runs of a net what is to be said (`column_of`): that it is legal so far, that it is complete, and that
// its last step breaks each rule.
type Counts = [u32; 13];

// What `tools/small_nets.py` counts for each of the nets.
const RUNS: [Counts; 22] = [
    [6, 5, 1617, 0, 516, 0, 1, 530, 12, 0, 2, 3, 3],
    [28, 16, 2310, 0, 1260, 1, 9, 1648, 84, 0, 7, 13, 14],
    [5, 4, 1470, 0, 472, 0, 0, 480, 12, 2, 1, 2, 2],
    [27, 16, 2310, 0, 1260, 0, 10, 1648, 84, 0, 7, 13, 15],
    [28, 19, 2415, 0, 1316, 0, 11, 1728, 81, 0, 7, 14, 16],
    [6, 7, 1764, 0, 564, 1, 0, 580, 11, 0, 2, 3, 2],
    [22, 17, 2205, 0, 1208, 0, 8, 1568, 81, 9, 4, 10, 13],
    [6, 6, 1764, 0, 564, 0, 1, 580, 11, 0, 2, 3, 3],
    [7, 6, 1260, 0, 704, 0, 2, 928, 23, 0, 2, 4, 4],
    [34, 16, 1794, 0, 1588, 2, 10, 2052, 102, 0, 7, 15, 15],
    [5, 4, 1050, 0, 592, 0, 0, 768, 23, 3, 1, 2, 2],
    [32, 16, 1794, 0, 1588, 0, 12, 2052, 102, 0, 7, 15, 17],
    [44, 16, 1950, 0, 1708, 0, 18, 2242, 96, 0, 7, 21, 23],
    [17, 8, 1470, 0, 808, 6, 0, 1088, 21, 0, 2, 8, 2],
    [22, 17, 1638, 0, 1460, 0, 8, 1862, 96, 15, 4, 10, 13],
    [13, 6, 1470, 0, 808, 0, 6, 1088, 21, 0, 2, 8, 8],
    [8, 6, 2445, 0, 468, 0, 0, 720, 19, 0, 3, 3, 3],
    [6, 4, 1375, 220, 368, 2, 0, 704, 11, 0, 1, 3, 1],
    [2, 2, 625, 0, 196, 0, 0, 384, 11, 3, 0, 1, 1],
    [8, 6, 2445, 0, 468, 0, 0, 720, 19, 0, 3, 3, 3],
    [95, 37, 7500, 0, 2208, 0, 37, 4560, 156, 0, 15, 44, 48],
    [26, 4, 6479, 64, 432, 6, 0, 556, 6, 0, 6, 8, 8],
];

// Each net has at most three tasks and four edges, so that no task has the number 3, and no edge the number 4.
const TASKS: usize = 4;

const CAUSES: [Cause; 7] = [
    Cause::Source,
    Cause::Strong,
    Cause::Weak(0),
    Cause::Weak(1),
    Cause::Weak(2),
    Cause::Weak(3),
    Cause::Weak(4),
];

// No edge, each alone, some twice, and the edges out of each task in both orders.
const GIVES: [&[u32]; 17] = [
    &[],
    &[0],
    &[1],
    &[2],
    &[3],
    &[4],
    &[0, 0],
    &[1, 1],
    &[2, 2],
    &[0, 1],
    &[1, 0],
    &[0, 2],
    &[2, 0],
    &[0, 3],
    &[3, 0],
    &[1, 2],
    &[2, 1],
];

// How many steps use a release, how many close a start, and the ways to do either.
const RELEASES: usize = TASKS * 7 * 5;

const CLOSINGS: usize = DEPTH as usize * 21;

// The step of a number.
fn step_of(number: usize) -> Step<'static> {
    if number < RELEASES {
        release_step(number)
    } else {
        closing_step(number - RELEASES)
    }
}

fn release_step(number: usize) -> Step<'static> {
    let task = (number % TASKS) as u32;
    let cause = CAUSES[number / TASKS % 7];
    match number / (TASKS * 7) {
        0 => Step::Start(task, cause),
        1 => Step::Drop(task, cause, DropWhy::Halted),
        2 => Step::Drop(task, cause, DropWhy::Limit),
        3 => Step::Drop(task, cause, DropWhy::Stuck(0)),
        _ => Step::Drop(task, cause, DropWhy::Stuck(1)),
    }
}

fn closing_step(number: usize) -> Step<'static> {
    let start = (number % DEPTH as usize) as u64;
    match number / DEPTH as usize {
        0 => Step::Fault(start, Why::Inner),
        1 => Step::Fault(start, Why::OverRelease(0)),
        2 => Step::Fault(start, Why::OverRelease(1)),
        3 => Step::InnerEnd(start, &[]),
        list => Step::End(start, GIVES[(list - 4) % 17]),
    }
}

#[test]
fn the_judge_says_what_plain_rules_say(rt: HostRuntime) -> Result<(), Fail> {
    for (number, (row, wanted)) in NETS.iter().zip(&RUNS).enumerate() {
        let counts = counts_of(rt.alloc(), *row)?;
        assert!(rt; counts == *wanted, "net {number}");
    }
    Ok(())
}

// What the judge says of the runs of the net of a row.
fn counts_of(alloc: Global, row: (Shape, Units, Links)) -> Result<Counts, Fail> {
    let (shape, units, links) = row;
    let task = Task { shape, units };
    let chain = [PLAIN, task, HOLDER];
    let pair = [task, HOLDER];
    let takers = [task, TAKER];
    let (tasks, edges, rings): Rows<'_> = match links {
        Links::Chain => (&chain, &[(0, 1), (1, 2)], &[]),
        Links::BegunChain => (&chain, &[(0, 1), (1, 2)], &[(0, 0)]),
        Links::Loop => (&chain, &[(0, 1), (1, 2), (1, 1)], &[]),
        Links::BegunLoop => (&chain, &[(0, 1), (1, 2), (1, 1)], &[(0, 0)]),
        Links::Pair => (&pair, &[(0, 1), (0, 1)], &[]),
        Links::BegunPair => (&pair, &[(0, 0), (0, 1)], &[(1, 0)]),
        Links::Beside => (&takers, &[], &[]),
    };
    let rows = NetCase {
        tasks,
        edges,
        rings,
    };
    let net = built(alloc, rows)?;
    let mut counts = [0; 13];
    let mut path = Vec::new(alloc);
    explore(alloc, &net, &mut counts, &mut path, DEPTH)?;
    Ok(counts)
}

// Tries each step after those of a path, and goes on from each that is taken.
fn explore(
    alloc: Global,
    net: &Net,
    counts: &mut Counts,
    path: &mut Vec<Step<'static>>,
    depth: u8,
) -> Result<(), NoMemory> {
    let before = path.len() as u64;
    for number in 0..RELEASES + CLOSINGS {
        path.push(step_of(number))?;
        let verdict = judged(alloc, net, LIMIT, path.as_slice())?;
        if let Some(count) = counts.get_mut(column_of(verdict, before)) {
            *count = count.saturating_add(1);
        }
        if depth > 1 && !matches!(verdict, Verdict::Breaks(_, _)) {
            explore(alloc, net, counts, path, depth - 1)?;
        }
        path.pop();
    }
    Ok(())
}

// Where a verdict is counted: nowhere if it names another step than the last, or another semaphore than the one.
fn column_of(verdict: Verdict, last: u64) -> usize {
    match verdict {
        Verdict::Legal => 0,
        Verdict::Complete => 1,
        Verdict::Breaks(place, broken) if place == last => column_of_break(broken),
        Verdict::Breaks(_, _) => usize::MAX,
    }
}

fn column_of_break(broken: Break) -> usize {
    match broken {
        Break::NoSuch => 2,
        Break::AfterStuck => 3,
        Break::NotReleased => 4,
        Break::OverUnits(0) => 5,
        Break::OverLimit => 6,
        Break::NotOpen => 7,
        Break::NotChosen => 8,
        Break::NothingOut(0) => 9,
        Break::NotOver => 10,
        Break::NotHalted => 11,
        Break::NotStuck => 12,
        Break::OverUnits(_) | Break::NothingOut(_) => usize::MAX,
    }
}
