// The watchers that a call is handed, and how they come back: in their order, whatever the number of workers, and told
// the spans of the kept runs.
ghost use Rattle.std.specs.Prelude.{None};

use crate::run_spans::count_spans;
use call_status::Status;
use flow_run::CallResult;
use journal_rules::Span;
use outside_io::NoMemory;
use span_profile::Watch;
use std::alloc::Global;
use std::sync::Arc;
use std::sync::atomic::AtomicU64;
use std::sync::atomic::Ordering::SeqCst;

// How far apart the counts are with which the watchers of a call begin: each of them is told fewer spans.
const APART: u64 = 1_000_000;

/// The watchers of a call: how many there are, how many workers are asked for, and which of all spans, counted from 0
/// as they are told, is refused.
#[derive(Clone, Copy)]
pub struct Handed {
    pub watchers: u64,
    pub workers: u64,
    pub refused: u64,
}

/// What the watchers of a call share: how many spans they were told, also the one that is refused, and which that is.
#[derive(Drop)]
pub struct Shared {
    spans: AtomicU64,
    refused: u64,
}

impl Shared {
    /// What the watchers of a call share before it.
    pub fn of(alloc: Global, handed: Handed) -> Result<Arc<Shared>, NoMemory> {
        let shared = Shared {
            spans: AtomicU64::new(0),
            refused: handed.refused,
        };
        Ok(Arc::new(alloc, shared)?)
    }
}

/// A watcher that counts on from a number, by which it is known.
#[derive(Drop)]
pub struct KnownCount {
    count: u64,
    shared: Arc<Shared>,
}

impl KnownCount {
    /// The watcher at a place.
    pub fn at(place: u64, shared: &Arc<Shared>) -> Result<KnownCount, NoMemory> {
        Ok(KnownCount {
            count: first_count(place),
            shared: Arc::try_clone(shared)?,
        })
    }
}

impl Watch for KnownCount {
    ghost told = { λ watcher. watcher.count };

    ghost seen = { λ _. None };

    ghost counts_spans = { λ _. tt };

    fn span(&mut self, _: Span) -> Result<(), NoMemory> {
        if self.shared.spans.fetch_add(1, SeqCst) == self.shared.refused {
            return Err(NoMemory);
        }
        self.count = self.count.saturating_add(1);
        Ok(())
    }

    fn count(&self) -> u64 {
        self.count
    }

    fn get(&self, _: u64) -> Option<Span> {
        None
    }
}

// The count with which the watcher at a place begins.
fn first_count(place: u64) -> u64 {
    place.saturating_mul(APART)
}

/// What is seen of the watchers that a call hands back: nothing, unless they are out of their order, or not told just
/// what they should be.
pub fn shown_watchers(handed: Handed, outcome: &CallResult) -> &'static str {
    let watchers = outcome.watchers.as_slice();
    if !are_in_order(watchers, handed.watchers) {
        return ", watchers out of order";
    }
    if told_from(watchers, handed.workers) > 0 {
        return ", a watcher of no worker told";
    }
    if are_told_all(handed, outcome) {
        ""
    } else {
        ", watchers told other spans"
    }
}

// Whether the watchers, if there are any, were together told as many spans as all kept runs have. Where memory ran out,
// those that were told before the refused one are not lost.
fn are_told_all(handed: Handed, outcome: &CallResult) -> bool {
    let told = told_from(outcome.watchers.as_slice(), 0);
    match outcome.status {
        Status::NoMemory => told >= handed.refused,
        _ => handed.watchers == 0 || told == count_spans(outcome.runs.as_slice()),
    }
}

// Whether there are so many watchers, each at the place where it was, with no smaller count.
fn are_in_order(watchers: &[Box<dyn Watch + Send>], count: u64) -> bool {
    watchers.len() as u64 == count
        && watchers
            .iter()
            .enumerate()
            .all(|(place, watcher)| watcher.count() / APART == place as u64)
}

// How many spans the watchers from this place on were told together.
fn told_from(watchers: &[Box<dyn Watch + Send>], first: u64) -> u64 {
    let mut told: u64 = 0;
    for (place, watcher) in watchers.iter().enumerate() {
        if place as u64 >= first {
            let since = watcher.count().saturating_sub(first_count(place as u64));
            told = told.saturating_add(since);
        }
    }
    told
}

const SPAN: Span = Span {
    depth: 0,
    task: 0,
    start: 0,
    end: 1,
};

/// Watchers out of their order are seen, and what they were told: the rows of calls would tell. Two watchers are told a
/// span each and then change places.
pub fn exchanged_watchers_are_seen(alloc: Global) -> Result<String, NoMemory> {
    let handed = Handed {
        watchers: 2,
        workers: 2,
        refused: 2,
    };
    let shared = Shared::of(alloc, handed)?;
    let mut watchers: Vec<Box<dyn Watch + Send>> = Vec::new(alloc);
    for place in 0..handed.watchers {
        let mut watcher = KnownCount::at(place, &shared)?;
        watcher.span(SPAN)?;
        watchers.push(Box::new(alloc, watcher)?)?;
    }
    let mut seen = String::from_str(alloc, "exchanged_watchers_are_seen: ")?;
    seen.push_str(shown_order(alloc, watchers.as_slice())?.as_str())?;
    watchers.as_mut_slice().reverse();
    seen.push_str("; exchanged, ")?;
    seen.push_str(shown_order(alloc, watchers.as_slice())?.as_str())?;
    Ok(seen)
}

// Whether these are two watchers in order, or three, and what those from each place on were told.
fn shown_order(alloc: Global, watchers: &[Box<dyn Watch + Send>]) -> Result<String, NoMemory> {
    Ok(format!(in alloc;
        "two in order: {}, three: {}, told {} {} {}",
        are_in_order(watchers, 2),
        are_in_order(watchers, 3),
        told_from(watchers, 0),
        told_from(watchers, 1),
        told_from(watchers, 2)
    )?)
}
