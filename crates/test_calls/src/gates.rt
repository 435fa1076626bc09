// Runs whose watchers wait for one another: workers that don't work at the same time never meet.
ghost use Rattle.std.specs.Prelude.{None};

use crate::calls::{Called, end_of_call, plain_inputs};
use crate::run_spans::count_spans;
use flow_run::CallResult;
use journal_rules::Span;
use outside_io::NoMemory;
use span_profile::Watch;
use std::alloc::Global;
use std::sync::atomic::AtomicU64;
use std::sync::atomic::Ordering::SeqCst;
use std::sync::{Arc, Wait};
use std::thread::{Threads, yield_now};

// How often a watcher looks for the others.
const LOOKS: u32 = 10_000_000;

// How many watchers are to meet, how many have come, and how many of these have seen that so many had.
#[derive(Drop)]
struct Meeting {
    watchers: u64,
    come: AtomicU64,
    met: AtomicU64,
}

impl Meeting {
    // Waits until as many watchers have come as are to meet.
    fn meet(&self) {
        self.come.fetch_add(1, SeqCst);
        for _ in 0..LOOKS {
            if self.come.load(SeqCst) >= self.watchers {
                self.met.fetch_add(1, SeqCst);
                return;
            }
            yield_now();
        }
    }
}

// A watcher that counts, and comes to a meeting when it is told its first span. A worker tells it within a step, so it
// takes no further task before the others have come.
#[derive(Drop)]
struct Gate {
    count: u64,
    meeting: Arc<Meeting>,
}

impl Watch for Gate {
    ghost told = { λ gate. gate.count };

    ghost seen = { λ _. None };

    ghost counts_spans = { λ _. tt };

    fn span(&mut self, _: Span) -> Result<(), NoMemory> {
        if self.count == 0 {
            self.meeting.meet();
        }
        self.count = self.count.saturating_add(1);
        Ok(())
    }

    fn count(&self) -> u64 {
        self.count
    }

    fn get(&self, _: u64) -> Option<Span> {
        None
    }
}

/// Two tasks.
pub const TWO_TASKS: &str = r#"{"tasks":[{"name":"a","op":"input"},{"name":"b","op":"input"}]}"#;

/// What is seen of as many watchers as workers that wait for one another, behind the name of the test: the exit code,
/// how many of them met the others, and how many spans they were told together, of how many.
pub fn seen_gates<R: Threads + Wait + Sync>(
    rt: &R,
    alloc: Global,
    test: &str,
    graph: &str,
    workers: u64,
) -> Result<String, NoMemory> {
    let meeting = Meeting {
        watchers: workers,
        come: AtomicU64::new(0),
        met: AtomicU64::new(0),
    };
    let meeting = Arc::new(alloc, meeting)?;
    let mut gates: Vec<Box<dyn Watch + Send>> = Vec::new(alloc);
    for _place in 0..workers {
        let gate = Gate {
            count: 0,
            meeting: Arc::try_clone(&meeting)?,
        };
        gates.push(Box::new(alloc, gate)?)?;
    }
    let words = format!(in alloc; "run g --workers {workers}")?;
    let inputs = plain_inputs(alloc, graph, words.as_str(), "-")?;
    let Called {
        outcome,
        out: _out,
        notes: _notes,
    } = end_of_call(rt, alloc, inputs, gates);
    let seen = shown_meeting(alloc, test, &outcome, &meeting);
    let _code = outcome.into_code();
    seen
}

fn shown_meeting(
    alloc: Global,
    test: &str,
    outcome: &CallResult,
    meeting: &Meeting,
) -> Result<String, NoMemory> {
    Ok(format!(in alloc;
        "{test}: code {}, met {}, told {} of {}",
        outcome.status.code(),
        meeting.met.load(SeqCst),
        counted_by(outcome.watchers.as_slice()),
        count_spans(outcome.runs.as_slice())
    )?)
}

// How many spans these watchers were told together.
fn counted_by(watchers: &[Box<dyn Watch + Send>]) -> u64 {
    let mut told: u64 = 0;
    for watcher in watchers {
        told = told.saturating_add(watcher.count());
    }
    told
}
