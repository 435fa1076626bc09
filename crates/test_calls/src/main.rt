//! Calls of the program, worked as examples. Each call is one of `flow_main` over texts and sinks in memory. It is no
//! part of the product.
//!
//! Most calls are rows of the tables in `stdin`, whose head says how one is written: its words, the texts that it
//! finds, what fails in it, and what is seen of it, which is the exit code, how many entries the journal of each kept
//! run has, whether the judge doesn't find it complete, or that of a run inside it, what both sinks took, and whether
//! the watchers didn't come back in their order, or were told other than the spans of the kept runs. Of a row whose
//! call is otherwise the program prints what was seen, and of each test how many rows it has. Then it prints what is
//! seen of the other tests: of `gates.rt`, whose watchers wait for one another, of `fuses.rt`, in which one refuses a
//! span, of `told_spans.rt`, which asks for the very spans, and of the line of a status that no call here ends with.
//! The file `stdout` has what is to be printed.
#![tactic(auto)]

mod calls;
mod fuses;
mod gates;
mod inputs;
mod notes;
mod pipe_starts;
mod run_spans;
mod seen_runs;
mod tables;
mod texts;
mod told_spans;
mod wanted;
mod watchers;

use gates::{TWO_TASKS, seen_gates};
use outside_io::NoMemory;
use std::io;
use tables::Tables;

fn main(rt: HostRuntime) -> io::Result<()> {
    let mut tables = Tables::new(rt.alloc());
    for line in rt.lines(rt.alloc()) {
        let line = line?;
        tell(&rt, tables.take(&rt, rt.alloc(), line.as_str()))?;
    }
    tell(&rt, tables.count(rt.alloc()))?;
    for (test, graph, workers) in [
        ("two_gates", TWO_TASKS, 2),
        ("four_gates_before_many_tasks", "300 TASKS", 4),
    ] {
        tell(&rt, seen_gates(&rt, rt.alloc(), test, graph, workers))?;
    }
    tell(&rt, fuses::a_blown_fuse_ends_the_call(&rt, rt.alloc()))?;
    for (words, workers) in [("run g --workers 1", 1), ("run g --workers 4", 4)] {
        let seen = told_spans::log_join_tells_each_span_once(&rt, rt.alloc(), words, workers);
        tell(&rt, seen)?;
    }
    tell(&rt, watchers::exchanged_watchers_are_seen(rt.alloc()))?;
    tell(&rt, notes::puts_the_line_and_for_done_nothing(rt.alloc()))
}

// Prints what is to be said, if there is something.
fn tell(rt: &HostRuntime, said: Result<String, NoMemory>) -> io::Result<()> {
    match said {
        Ok(said) if said.is_empty() => Ok(()),
        Ok(said) => println!(rt; "{}", said.as_str()),
        Err(NoMemory) => println!(rt; "no memory"),
    }
}
