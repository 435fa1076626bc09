// The command `profile`.
ghost use Rattle.std.specs.Prelude.{◌≡◌, ◌≢◌, [], false, true, None, Some, IfOk, length, map};
ghost use Rattle.outside_io.specs.Sink.{Writes};
ghost use Rattle.call_status.specs.Delivery.{Delivers};
ghost use Rattle.call_status.specs.Reasons.{reason_line};
ghost use Rattle.command_line.specs.Rounds.{asked_rounds};
ghost use Rattle.profile_table.specs.Profiles.{profile_of};
ghost use Rattle.run_frame.specs.NestedRule.{journal_of};
ghost use Rattle.text_tasks.specs.JobMeaning.{IsGraphJob};
ghost use Rattle.flow_run.specs.Answers.{HasWritten, ProfileEnds, RanProfile, conclusion_text};
ghost use Rattle.flow_run.specs.Profiles.{IsProfileOf, graph_profile_text, plan_run, spans_of_all};
ghost use Rattle.flow_run.specs.Reads.{HaveRead};
ghost use Rattle.flow_run.specs.RoundTexts.{last_reason};
ghost use Rattle.flow_run.specs.Watched.{HaveSeen};

use super::call::{Ended, plan_run, stopped};
use super::check_command::copies;
use super::conclusion::{Conclusion, GraphProfile};
use super::inputs::prepare;
use super::report::put_value;
use super::round_ends::{after_runs, last_reason, status_of_rounds};
use super::workers::{RoundsRun, run_rounds};
use call_status::{Status, add_reason_line, flushed};
use command_line::{Profile, RunOptions};
use nested_runs::{Reason, spans};
use outside_io::{Bytes, List, NoMemory, Sink, SinkFault, Texts};
use profile_table::{Table, print_table};
use run_frame::FrameRun;
use span_profile::Watch;
use std::alloc::Global;
use std::sync::Wait;
use std::thread::Threads;
use text_tasks::TextJob;

/// Runs the rounds that are asked for of the graph in a file, and writes what its tasks did in them.
pub(crate) fn profile_file<F: Texts, S: Sink, R: Threads + Wait + Sync>(
    rt: &R,
    alloc: Global,
    asked: Profile<'_>,
    texts: &mut F,
    out: &mut S,
    watchers: &mut Vec<Box<dyn Watch + Send>>,
) -> Ended
    requires nothing_held { (S.state out.old).held_back ≡ [] }
    ensures ends { ProfileEnds (F.held texts.old) asked.entry.options.file.now asked.entry.options.limit
        (asked_rounds asked.entry.options.rounds) result.status result.runs result.conclusion }
    ensures output { HasWritten S.state out.old out.new result.status
        ((result.runs ≡ []) × (result.conclusion ≡ None)) (conclusion_text result.conclusion)
        result.written }
    ensures read { HaveRead F.held F.failed texts.old texts.new result.status }
    ensures watchers { HaveSeen told asked.entry.options.workers (result.status ≢ Status.NoMemory)
        result.runs watchers.old.items watchers.new.items }
{
    match prepare(rt, alloc, texts, asked.options) {
        Ok(job) => run_and_count(rt, alloc, asked.options, job, out, watchers),
        Err(stop) => stopped(alloc, Status::of(stop)),
    }
}

// Runs the rounds of the job that are asked for, and writes what its tasks did in them.
fn run_and_count<S: Sink, R: Threads + Wait + Sync>(
    rt: &R,
    alloc: Global,
    asked: RunOptions<'_>,
    job: TextJob,
    out: &mut S,
    watchers: &mut Vec<Box<dyn Watch + Send>>,
) -> Ended
    requires graph { IsGraphJob job }
    requires nothing_held { (S.state out.old).held_back ≡ [] }
    ensures ends { RanProfile (λ of. of ≡ job) (asked_rounds asked.entry.rounds) result.status
        result.runs result.conclusion }
    ensures output { HasWritten S.state out.old out.new result.status
        ((result.runs ≡ []) × (result.conclusion ≡ None)) (conclusion_text result.conclusion)
        result.written }
    ensures watchers { HaveSeen told asked.entry.workers (result.status ≢ Status.NoMemory) result.runs
        watchers.old.items watchers.new.items }
{
    let Ok(names) = copies(alloc, job.names()) else {
        return stopped(alloc, Status::NoMemory);
    };
    let ran = run_rounds(rt, alloc, asked.workers, asked.rounds, job, watchers);
    if failed_at_once(&ran) {
        return after_runs(ran.runs, Status::NoMemory, true);
    }
    let RoundsRun { runs, whole } = ran;
    let Ok(reason) = last_reason(alloc, runs.as_slice()) else {
        return after_runs(runs, Status::NoMemory, true);
    };
    let Ok(counts) = counts_of(alloc, names, runs.as_slice(), &reason) else {
        return after_runs(runs, Status::NoMemory, true);
    };
    let written = deliver_counts(alloc, out, &counts);
    Ended {
        status: status_of_rounds(whole, reason, written),
        runs,
        conclusion: Some(Conclusion::Profile(counts)),
        written: written.is_ok(),
    }
}

// Whether an allocation failed before a round was run to its end.
fn failed_at_once(ran: &RoundsRun) -> bool
    ensures { result ≡ false → ran.now.runs ≡ [] → ran.now.whole ≡ true }
{
    ran.runs.is_empty() && !ran.whole
}

// The profile of these rounds of a graph whose tasks have these names, the last of which came to its end for this
// reason.
fn counts_of(
    alloc: Global,
    names: List<Bytes>,
    runs: &[FrameRun<TextJob>],
    reason: &Reason,
) -> Result<GraphProfile, NoMemory>
    requires { reason.now ≡ last_reason runs.now }
    ensures { IfOk result (IsProfileOf names runs.now) }
{
    let table = table_of(alloc, names.len(), runs)?;
    let mut last_line = List::new(alloc);
    add_reason_line(&mut last_line, plan_run(runs), reason)?;
    Ok(GraphProfile {
        names,
        table,
        spans: spans_of_all(runs),
        last_line,
    })
}

// The table of so many tasks in these runs. `NoMemory` comes also where they have too many entries for a `u64`.
fn table_of(alloc: Global, tasks: usize, runs: &[FrameRun<TextJob>]) -> Result<Table, NoMemory>
    ensures { IfOk result (λ table. table ≡ profile_of tasks (map journal_of runs.now)) }
{
    let mut table = Table::new(alloc, tasks)?;
    for run in runs {
        let journal = run.journal.as_slice();
        if !table.can_add(journal) {
            return Err(NoMemory);
        }
        table.add(journal);
    }
    Ok(table)
}

// How many spans these runs have, with those of the runs inside them.
fn spans_of_all(runs: &[FrameRun<TextJob>]) -> u64
    ensures { result ≡ spans_of_all runs.now }
{
    let mut total: u64 = 0;
    for run in runs {
        total = total.saturating_add(spans(run));
    }
    total
}

// Writes a profile to the output, and all that is held back of it.
fn deliver_counts<S: Sink>(
    alloc: Global,
    out: &mut S,
    counts: &GraphProfile,
) -> Result<(), SinkFault>
    requires nothing_held { (S.state out.old).held_back ≡ [] }
    requires rows { length counts.now.names ≡ length counts.now.table.rows }
    ensures { Delivers (S.state out.old) (S.state out.new) (graph_profile_text counts.now) result }
{
    let written = put_counts(alloc, out, counts);
    flushed(out, written)
}

// Writes a profile: its table, and why the last round was cut short, if it was.
#[tactic(auto, using(outside_io::proofs::Pieces::writes_both, outside_io::proofs::Pieces::writes_no_more))]
fn put_counts<S: Sink>(alloc: Global, out: &mut S, counts: &GraphProfile) -> Result<(), SinkFault>
    requires { length counts.now.names ≡ length counts.now.table.rows }
    ensures { Writes (S.state out.old) (S.state out.new) (graph_profile_text counts.now) result }
{
    print_table(
        alloc,
        &counts.table,
        counts.names.as_slice(),
        counts.spans,
        out,
    )?;
    put_value(out, counts.last_line.as_slice())
}
