// What is asked of a run.
use crate::data_rule::{finds_in_order, finds_something, meets_data_rule};
use crate::job_cases::JobCase;
use journal_rules::{Entry, Why};
use legal_run::{Verdict, judge};
use run_frame::{FrameRun, Job};
use std::alloc::Global;
use std::process::Abort;
use std::test::Fail;
use test_jobs::NumberJob;

/// Who takes the steps of a run.
#[derive(Clone, Copy)]
pub(crate) enum By {
    OneThread,
    Crew,
}

/// The run and those inside it are as they should be, they have as many starts as the case says, and the run faults for
/// the reason of the case, or not at all.
pub(crate) fn check_whole(
    rt: &impl Abort,
    alloc: Global,
    case: &JobCase<'_>,
    by: By,
    run: &FrameRun<NumberJob>,
) -> Result<(), Fail> {
    let starts = check_run(rt, alloc, case, by, run)?;
    assert!(rt;
        case.least <= starts && starts <= case.most,
        "{}: {starts}",
        case.name
    );
    let why = last_fault(run.journal.as_slice());
    assert!(rt; why == case.why, "{}: {why:?}", case.name);
    Ok(())
}

// A run and those inside it are as they should be, and in one with none inside as many tasks have met as the case says.
// How many starts they have.
#[cycle(run_checks)]
fn check_run(
    rt: &impl Abort,
    alloc: Global,
    case: &JobCase<'_>,
    by: By,
    run: &FrameRun<NumberJob>,
) -> Result<u64, Fail> {
    check_journal(rt, alloc, case, by, run)?;
    let mut starts = check_entries(rt, case, run);
    if run.inner.is_empty() {
        assert!(rt; run.job.met() == case.meeting, "{}", case.name);
    }
    for row in run.inner.as_slice() {
        starts = starts.saturating_add(check_run(rt, alloc, case, by, &row.run)?);
    }
    Ok(starts)
}

// The journal of a run is complete and meets the data rule, and no start lacks a part. By one thread the parts are
// found in their order, besides, where no release is parked.
fn check_journal(
    rt: &impl Abort,
    alloc: Global,
    case: &JobCase<'_>,
    by: By,
    run: &FrameRun<NumberJob>,
) -> Result<(), Fail> {
    let net = run.job.net();
    let journal = run.journal.as_slice();
    let verdict = judge(alloc, net, case.limit, &run.journal)?;
    assert!(rt; verdict == Verdict::Complete, "{}: {verdict:?}", case.name);
    assert!(rt; meets_data_rule(alloc, net, journal)?, "{}", case.name);
    assert!(rt; finds_something(journal), "{}", case.name);
    if matches!(by, By::OneThread) && net.sems().is_empty() {
        assert!(rt; finds_in_order(alloc, net, journal)?, "{}", case.name);
    }
    Ok(())
}

// Runs are where they may be, and what they come to is that with which their starts ended. How many starts there are.
fn check_entries(rt: &impl Abort, case: &JobCase<'_>, run: &FrameRun<NumberJob>) -> u64 {
    let mut starts: u64 = 0;
    for (place, entry) in run.journal.as_slice().iter().enumerate() {
        if matches!(entry, Entry::Start { .. }) {
            starts = starts.saturating_add(1);
        }
        check_entry(rt, case, run, place as u64, entry);
    }
    starts
}

// What is at an entry.
fn check_entry(
    rt: &impl Abort,
    case: &JobCase<'_>,
    run: &FrameRun<NumberJob>,
    place: u64,
    entry: &Entry,
) {
    let is_right = match (entry, run.inner(place)) {
        (Entry::End { inner: true, .. }, Some(inner)) => is_gathered(run, place, inner),
        (Entry::End { inner: false, .. }, None) => run.value(place).is_some(),
        (Entry::End { .. }, _) => false,
        (
            Entry::Fault {
                why: Why::Inner,
                ..
            },
            Some(inner),
        ) => !inner.is_fine(),
        (
            Entry::Fault {
                why: Why::Wide(_),
                ..
            },
            Some(_),
        ) => true,
        (
            Entry::Fault {
                why: Why::Inner | Why::Wide(_),
                ..
            },
            None,
        ) => false,
        (_, inner) => inner.is_none(),
    };
    assert!(rt; is_right, "{}: {place}", case.name);
}

// Whether a run was fine, and the End at a place has what it was gathered to.
fn is_gathered(run: &FrameRun<NumberJob>, place: u64, inner: &FrameRun<NumberJob>) -> bool {
    match run.value(place) {
        Some(number) => *number == inner.journal.len() as u64 && inner.is_fine(),
        None => false,
    }
}

// Why a journal's last Fault came, if it has one.
fn last_fault(journal: &[Entry]) -> Option<Why> {
    let mut last = None;
    for entry in journal {
        if let Entry::Fault { why, .. } = entry {
            last = Some(*why);
        }
    }
    last
}
