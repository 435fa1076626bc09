// How many starts and spans a run has, with the runs inside it.
ghost use Rattle.std.specs.Prelude.{◌≡◌, count_by, map, min, sum};
ghost use Rattle.journal_rules.specs.Counts.{is_start, starts};
ghost use Rattle.run_frame.specs.NestedRule.{journal_of};
ghost use Rattle.nested_runs.specs.Totals.{all_spans, is_span, spans_of_row, starts_inside, starts_of_row};

use journal_rules::Entry;
use run_frame::{FrameRun, InnerRow, Valued};

/// How many starts a run has, without those of the runs inside it.
pub fn starts<J: Valued>(run: &FrameRun<J>) -> u64
    ensures { result ≡ starts (journal_of run.now) }
{
    count_starts(run.journal.as_slice()) as u64
}

/// How many starts the runs inside a run have, at each depth. A sum that would be greater than the greatest `u64` is
/// that.
#[cycle(inner_starts)]
pub fn inner_starts<J: Valued>(run: &FrameRun<J>) -> u64
    ensures { result ≡ min (starts_inside run.now) 18446744073709551615 }
{
    starts_in(run.inner.as_slice())
}

/// How many spans a run has, with those of the runs inside it: a start with its End or Fault is one. A sum that would
/// be greater than the greatest `u64` is that.
#[cycle(spans)]
pub fn spans<J: Valued>(run: &FrameRun<J>) -> u64
    ensures { result ≡ min (all_spans run.now) 18446744073709551615 }
{
    let own = count_spans(run.journal.as_slice()) as u64;
    own.saturating_add(spans_in(run.inner.as_slice()))
}

// The starts of these runs and of those inside them.
#[cycle(inner_starts)]
fn starts_in<J: Valued>(rows: &[InnerRow<J>]) -> u64
    ensures { result ≡ min (sum (map starts_of_row rows.now)) 18446744073709551615 }
{
    let mut total: u64 = 0;
    for row in rows {
        let own = starts(&row.run).saturating_add(inner_starts(&row.run));
        total = total.saturating_add(own);
    }
    total
}

// The spans of these runs and of those inside them.
#[cycle(spans)]
fn spans_in<J: Valued>(rows: &[InnerRow<J>]) -> u64
    ensures { result ≡ min (sum (map spans_of_row rows.now)) 18446744073709551615 }
{
    let mut total: u64 = 0;
    for row in rows {
        total = total.saturating_add(spans(&row.run));
    }
    total
}

// How many Starts a journal has.
fn count_starts(journal: &[Entry]) -> usize
    ensures { result ≡ starts journal.now }
{
    journal.iter().filter(|entry| is_start(entry)).count()
}

// Whether an entry is a Start.
fn is_start(entry: &Entry) -> bool
    ensures { result ≡ is_start entry.now }
{
    matches!(entry, Entry::Start { .. })
}

// How many Ends and Faults a journal has.
fn count_spans(journal: &[Entry]) -> usize
    ensures { result ≡ count_by is_span journal.now }
{
    journal.iter().filter(|entry| is_span(entry)).count()
}

// Whether an entry ends a span.
fn is_span(entry: &Entry) -> bool
    ensures { result ≡ is_span entry.now }
{
    matches!(entry, Entry::End { .. } | Entry::Fault { .. })
}
