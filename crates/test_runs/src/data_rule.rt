// The rule on inputs, decided in one walk over a journal. No clause says what is decided: this is the rule in other
// words than the definition, which the journals of runs are proved to meet.
use crate::nets::net_of;
use journal_rules::{Cause, Entry, Part};
use outside_io::{List, NoMemory};
use std::alloc::Global;
use std::process::Abort;
use std::test::Fail;
use task_graph::Net;

/// What the entries so far say of an edge.
#[derive(Clone, Copy)]
struct EdgeUse {
    // The last End that gave it, or else First.
    last: Part,
    // How many tokens it was given, with the one at first, and how many of them were used.
    given: u64,
    used: u64,
    // Whether there was never more than one that wasn't used.
    is_calm: bool,
}

/// The edges of a net after some entries, and the parts that may still be found, each with its edge.
#[derive(Drop)]
struct Edges {
    uses: Vec<EdgeUse>,
    parts: Vec<(u32, Part)>,
}

/// Whether each start finds a part at each edge that released it, in their order: an End that gave the edge, or the
/// token with which it began, that no start found there before, or nothing; and the last End where there was never more
/// than one token.
pub(crate) fn meets_data_rule(
    alloc: Global,
    net: &Net,
    journal: &[Entry],
) -> Result<bool, NoMemory> {
    let mut edges = Edges::at_first(alloc, net)?;
    for (place, entry) in journal.iter().enumerate() {
        match entry {
            Entry::Start { task, cause, ins } => {
                let weak = weak_edge(*cause);
                let at = released_by(net, *task, *cause, &weak);
                if !edges.find_each(at, ins.as_slice()) {
                    return Ok(false);
                }
                edges.use_each(at);
            }
            Entry::Drop { task, cause, .. } => {
                let weak = weak_edge(*cause);
                edges.use_each(released_by(net, *task, *cause, &weak));
            }
            Entry::End { gives, .. } => edges.give(gives.as_slice(), place as u64)?,
            Entry::Fault { .. } => {}
        }
    }
    Ok(true)
}

/// Whether no start finds nothing at an edge that released it.
pub(crate) fn finds_something(journal: &[Entry]) -> bool {
    !journal.iter().any(
        |entry| matches!(entry, Entry::Start { ins, .. } if ins.contains(&Part::Nothing)),
    )
}

/// Whether the starts of a journal find what each edge was given in the order in which it was given it.
pub(crate) fn finds_in_order(
    alloc: Global,
    net: &Net,
    journal: &[Entry],
) -> Result<bool, NoMemory> {
    let mut least = vec![in alloc; 0u64; net.edges().len()]?;
    for entry in journal {
        let Entry::Start { task, cause, ins } = entry else {
            continue;
        };
        let weak = weak_edge(*cause);
        let edges = released_by(net, *task, *cause, &weak);
        for (edge, part) in edges.iter().zip(ins.as_slice()) {
            if !is_next(least.as_mut_slice(), *edge, *part) {
                return Ok(false);
            }
        }
    }
    Ok(true)
}

// Whether a part may be found at an edge, by the least place of an End that may be found there. It is found then.
fn is_next(least: &mut [u64], edge: u32, part: Part) -> bool {
    match (least.get_mut(edge as usize), part) {
        (Some(least), Part::From(place)) => {
            let is_later = *least <= place;
            *least = place.saturating_add(1);
            is_later
        }
        (Some(least), Part::First) => *least == 0,
        _ => false,
    }
}

// The weak edge of a cause, or some edge.
fn weak_edge(cause: Cause) -> [u32; 1] {
    match cause {
        Cause::Weak(edge) => [edge],
        _ => [0],
    }
}

// The edges that release a task by a cause, of which `weak` is the one of a weak cause.
fn released_by<'n>(net: &'n Net, task: u32, cause: Cause, weak: &'n [u32]) -> &'n [u32] {
    match cause {
        Cause::Strong if (task as usize) < net.tasks().len() => net.strong_in(task),
        Cause::Weak(_) => weak,
        _ => &[],
    }
}

impl Edges {
    // The edges of a net before the first entry.
    fn at_first(alloc: Global, net: &Net) -> Result<Edges, NoMemory> {
        let mut edges = Edges {
            uses: Vec::new(alloc),
            parts: Vec::new(alloc),
        };
        let mut edge = 0u32;
        for row in net.edges() {
            if row.start {
                edges.parts.push((edge, Part::First))?;
            }
            edges.uses.push(EdgeUse {
                last: Part::First,
                given: u64::from(row.start),
                used: 0,
                is_calm: true,
            })?;
            edge = edge.saturating_add(1);
        }
        Ok(edges)
    }

    // Whether a start may find these parts at these edges. They are found then.
    fn find_each(&mut self, edges: &[u32], parts: &[Part]) -> bool {
        for (edge, part) in edges.iter().zip(parts) {
            if !self.find(*edge, *part) {
                return false;
            }
        }
        edges.len() == parts.len()
    }

    // Whether a start may find this part at an edge. It is found then.
    fn find(&mut self, edge: u32, part: Part) -> bool {
        let Some(use_of) = self.uses.get(edge as usize) else {
            return false;
        };
        if use_of.is_calm && part != use_of.last {
            return false;
        }
        if part == Part::Nothing {
            return true;
        }
        match self.parts.iter().position(|one| *one == (edge, part)) {
            Some(index) => {
                self.parts.swap_remove(index);
                true
            }
            None => false,
        }
    }

    // A token of each of these edges is used.
    fn use_each(&mut self, edges: &[u32]) {
        for edge in edges {
            if let Some(use_of) = self.uses.get_mut(*edge as usize) {
                use_of.used = use_of.used.saturating_add(1);
            }
        }
    }

    // The End at a place gives these edges.
    fn give(&mut self, edges: &[u32], place: u64) -> Result<(), NoMemory> {
        for edge in edges {
            self.parts.push((*edge, Part::From(place)))?;
            if let Some(use_of) = self.uses.get_mut(*edge as usize) {
                use_of.last = Part::From(place);
                use_of.given = use_of.given.saturating_add(1);
                use_of.is_calm = use_of.is_calm && use_of.given <= use_of.used.saturating_add(1);
            }
        }
        Ok(())
    }
}

// An entry of a journal in which one edge leads from a first task to a second.
#[derive(Clone, Copy)]
enum Line {
    // The first task starts, and finds these parts.
    First(Cause, &'static [Part]),
    // The start at this place ends, and gives these edges.
    Ends(u64, &'static [u32]),
    // The second task starts, and finds these parts.
    Second(&'static [Part]),
}

// A net, the first lines of a journal, and last ones, which the rule allows after them or not.
struct Lines {
    net: &'static str,
    front: &'static [Line],
    last: &'static [(&'static [Line], bool)],
}

// The edge is given one token, by the End at place 1.
const CALM: Lines = Lines {
    net: "pp ab",
    front: &[Line::First(Cause::Source, &[]), Line::Ends(0, &[0])],
    last: &[
        (&[Line::Second(&[Part::From(1)])], true),
        (&[Line::Second(&[Part::From(0)])], false),
        (&[Line::Second(&[Part::First])], false),
        (&[Line::Second(&[Part::Nothing])], false),
        (&[Line::Second(&[])], false),
        (&[Line::Second(&[Part::From(1), Part::From(1)])], false),
    ],
};

// The edge is given two tokens, by the Ends at places 1 and 3, and both are used.
const QUEUED: Lines = Lines {
    net: "pp ab aa*",
    front: &[
        Line::First(Cause::Strong, &[Part::First]),
        Line::Ends(0, &[0, 1]),
        Line::First(Cause::Strong, &[Part::From(1)]),
        Line::Ends(2, &[0, 1]),
    ],
    last: &[
        (
            &[
                Line::Second(&[Part::From(1)]),
                Line::Second(&[Part::From(3)]),
            ],
            true,
        ),
        (
            &[
                Line::Second(&[Part::From(3)]),
                Line::Second(&[Part::From(1)]),
            ],
            true,
        ),
        (
            &[
                Line::Second(&[Part::Nothing]),
                Line::Second(&[Part::From(3)]),
            ],
            true,
        ),
        (
            &[
                Line::Second(&[Part::From(1)]),
                Line::Second(&[Part::Nothing]),
            ],
            true,
        ),
        (
            &[
                Line::Second(&[Part::From(1)]),
                Line::Second(&[Part::From(1)]),
            ],
            false,
        ),
        (
            &[Line::Second(&[Part::From(1)]), Line::Second(&[Part::First])],
            false,
        ),
        (
            &[
                Line::Second(&[Part::From(2)]),
                Line::Second(&[Part::From(3)]),
            ],
            false,
        ),
    ],
};

impl Line {
    fn entry(&self, alloc: Global) -> Result<Entry, NoMemory> {
        match self {
            Line::First(cause, parts) => start_of(alloc, 0, *cause, parts),
            Line::Ends(start, edges) => Ok(Entry::End {
                start: *start,
                gives: List::from_slice(alloc, edges)?,
                inner: false,
            }),
            Line::Second(parts) => start_of(alloc, 1, Cause::Strong, parts),
        }
    }
}

fn start_of(alloc: Global, task: u32, cause: Cause, parts: &[Part]) -> Result<Entry, NoMemory> {
    let ins = List::from_slice(alloc, parts)?;
    Ok(Entry::Start { task, cause, ins })
}

// The journal of some lines and those after them.
fn journal_of(alloc: Global, front: &[Line], last: &[Line]) -> Result<Vec<Entry>, NoMemory> {
    let mut journal = Vec::new(alloc);
    add_lines(alloc, &mut journal, front)?;
    add_lines(alloc, &mut journal, last)?;
    Ok(journal)
}

fn add_lines(alloc: Global, journal: &mut Vec<Entry>, lines: &[Line]) -> Result<(), NoMemory> {
    for line in lines {
        journal.push(line.entry(alloc)?)?;
    }
    Ok(())
}

#[test]
fn starts_find_what_they_may(rt: HostRuntime) -> Result<(), Fail> {
    check_lines(&rt, rt.alloc(), &CALM)?;
    check_lines(&rt, rt.alloc(), &QUEUED)
}

fn check_lines(rt: &impl Abort, alloc: Global, lines: &Lines) -> Result<(), Fail> {
    let net = net_of(alloc, lines.net)?;
    for (number, (last, may)) in lines.last.iter().enumerate() {
        let journal = journal_of(alloc, lines.front, last)?;
        let meets = meets_data_rule(alloc, &net, journal.as_slice())?;
        assert!(rt; meets == *may, "row {number}");
    }
    Ok(())
}
