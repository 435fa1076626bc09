// Jobs of numbers over small nets, and what comes of their runs, as lines of texts.
//
// A case is a line: its name; its net (`nets.rt` says how one is written) and those of the jobs inside it, level by
// level, with ` / ` between two; what else it says, each after a comma; and behind the arrow how many starts a run has,
// with those of the runs inside it, and why it faults, if it does. So
//
//     a fault inside: pnp ab bc / ppp ab bc, fault 3 -> starts 5, inner
//
// is a row of three tasks, of which the middle one has a run of such a row inside. What a case may say:
//
// - `limit N`: a run has at most so many starts, and so has each run inside it;
// - `fault N`: a task that comes to this number faults;
// - `turns N`: below this number a choice chooses its first edge, and else its second;
// - `meeting N`: so many tasks meet in a run with no run inside, which is all of it;
// - `starts N`, `starts N to M`: how many starts a run has;
// - `long N`, `wide N`, `inner`, `over N`: why a run faults.
use crate::nets::net_of;
use journal_rules::Why;
use std::alloc::Global;
use std::sync::Arc;
use std::test::Fail;
use task_graph::Net;
use test_jobs::NumberJob;

/// A job, and what comes of each run of it.
#[derive(Clone, Copy)]
pub(crate) struct JobCase<'r> {
    pub(crate) name: &'r str,
    /// Its net and those of the jobs inside it.
    nets: &'r str,
    pub(crate) limit: u64,
    turns: u64,
    fault: u64,
    pub(crate) meeting: u64,
    /// How many starts a run has at least and at most.
    pub(crate) least: u64,
    pub(crate) most: u64,
    pub(crate) why: Option<Why>,
}

// A limit that no run here comes to.
const LIMIT: u64 = 10_000;

// No number that a task or a run comes to.
const NONE: u64 = 1_000_000;

/// The case of a line.
pub(crate) fn case_of(line: &str) -> Result<JobCase<'_>, Fail> {
    let (name, rest) = line.split_once(": ").unwrap_or((line, ""));
    let (job, seen) = rest.split_once(" -> ").unwrap_or((rest, ""));
    let (nets, settings) = job.split_once(", ").unwrap_or((job, ""));
    let case = JobCase {
        name,
        nets,
        limit: LIMIT,
        turns: 0,
        fault: NONE,
        meeting: 0,
        least: NONE,
        most: NONE,
        why: None,
    };
    with_parts(with_parts(case, settings)?, seen)
}

// The case with what these parts say besides.
fn with_parts<'r>(mut case: JobCase<'r>, parts: &str) -> Result<JobCase<'r>, Fail> {
    for part in parts.split(", ") {
        case = with_part(case, part)?;
    }
    Ok(case)
}

// The case with what a part says besides.
fn with_part<'r>(mut case: JobCase<'r>, part: &str) -> Result<JobCase<'r>, Fail> {
    let (word, numbers) = part.split_once(' ').unwrap_or((part, "0"));
    let (number, most) = numbers.split_once(" to ").unwrap_or((numbers, numbers));
    let number = number.parse::<u64>()?;
    match word {
        "" => (),
        "limit" => case.limit = number,
        "turns" => case.turns = number,
        "fault" => case.fault = number,
        "meeting" => case.meeting = number,
        "starts" => {
            case.least = number;
            case.most = most.parse::<u64>()?;
        }
        word => case.why = Some(why_of(word, number)?),
    }
    Ok(case)
}

fn why_of(word: &str, number: u64) -> Result<Why, Fail> {
    match word {
        "long" => Ok(Why::Long(number)),
        "wide" => Ok(Why::Wide(number)),
        "inner" => Ok(Why::Inner),
        "over" => Ok(Why::OverRelease(u32::try_from(number)?)),
        _ => Err(Fail::new(format_args!("`{word}` says nothing"))),
    }
}

impl JobCase<'_> {
    /// The job of a case.
    pub(crate) fn job(&self, alloc: Global) -> Result<NumberJob, Fail> {
        let (net, inner) = self.nets.split_once(" / ").unwrap_or((self.nets, ""));
        let net = net_of(alloc, net)?;
        let Some(job) = NumberJob::new(net, self.limit, self.turns, self.fault) else {
            return Err(Fail::new("too many starts"));
        };
        if inner.is_empty() {
            return Ok(job.with_meeting(self.meeting));
        }
        let nets = Arc::new(alloc, nets_of(alloc, inner)?)?;
        Ok(job.with_inner(nets).with_meeting_inside(self.meeting))
    }
}

fn nets_of(alloc: Global, texts: &str) -> Result<Vec<Arc<Net>>, Fail> {
    let mut nets = Vec::new(alloc);
    for text in texts.split(" / ") {
        nets.push(net_of(alloc, text)?)?;
    }
    Ok(nets)
}
