// Runs of books as runs of nets: what the judge says of one, and its journal as text.
use async_journal::{journal_of_events, net_of_adds};
use async_tasks::{AsyncRun, AsyncWork};
use journal_rules::Journal;
use journal_text::print_journal;
use legal_run::{Verdict, judge};
use outside_io::List;
use outside_io::for_tests::MemorySink;
use std::alloc::Global;
use std::test::Fail;
use task_graph::{BuildError, Net};

// A run's net and journal.
fn as_net_run<W: AsyncWork>(
    alloc: Global,
    run: &AsyncRun<W>,
) -> Result<(Net, Journal), BuildError> {
    let net = net_of_adds(alloc, run.adds.as_slice())?;
    let journal = journal_of_events(alloc, &net, run.adds.as_slice(), run.events.as_slice())?;
    Ok((net, journal))
}

/// What the judge says of a run, which may have as many starts as it has adds.
pub fn verdict_on<W: AsyncWork>(alloc: Global, run: &AsyncRun<W>) -> Result<Verdict, BuildError> {
    let (net, journal) = as_net_run(alloc, run)?;
    Ok(judge(alloc, &net, run.adds.len() as u64, &journal)?)
}

/// A run's journal as text.
pub fn printed<W: AsyncWork>(alloc: Global, run: &AsyncRun<W>) -> Result<MemorySink, Fail> {
    let (_, journal) = as_net_run(alloc, run)?;
    let mut sink = MemorySink::new(alloc, List::new(alloc));
    print_journal(alloc, journal.as_slice(), &mut sink)?;
    Ok(sink)
}
