// The command `run`.
ghost use Rattle.std.specs.Prelude.{◌≡◌, ◌≢◌, [], None, All, IfOk, IsOk};
ghost use Rattle.outside_io.specs.Sink.{Writes};
ghost use Rattle.call_status.specs.Delivery.{Delivers};
ghost use Rattle.command_line.specs.Rounds.{asked_rounds};
ghost use Rattle.run_frame.specs.Legal.{IsKept};
ghost use Rattle.text_tasks.specs.JobMeaning.{text_job, IsGraphJob};
ghost use Rattle.flow_run.specs.Answers.{JobEnds, Reported, RunEnds};
ghost use Rattle.flow_run.specs.Reads.{HaveRead};
ghost use Rattle.flow_run.specs.RoundTexts.{line_before, round_line, round_text, rounds_text, run_text};
ghost use Rattle.flow_run.specs.Watched.{HaveSeen};

use super::call::{Ended, stopped};
use super::inputs::prepare;
use super::report::put_report;
use super::round_ends::{after_runs, last_reason, status_of_rounds};
use super::workers::{RoundsRun, run_rounds};
use call_status::{Status, flushed};
use command_line::{Rounds, Run, RunOptions};
use journal_text::print_journal;
use nested_runs::reason_of;
use outside_io::{Bytes, List, NoMemory, Sink, SinkFault, Texts, add_numbered, put_piece};
use run_frame::FrameRun;
use span_profile::Watch;
use std::alloc::Global;
use std::sync::Wait;
use std::thread::Threads;
use text_tasks::TextJob;

/// Runs the rounds that are asked for of the graph in a file, and writes their reports, or their journals.
pub(crate) fn run_file<F: Texts, S: Sink, R: Threads + Wait + Sync>(
    rt: &R,
    alloc: Global,
    asked: Run<'_>,
    texts: &mut F,
    out: &mut S,
    watchers: &mut Vec<Box<dyn Watch + Send>>,
) -> Ended
    requires nothing_held { (S.state out.old).held_back ≡ [] }
    ensures ends { RunEnds (F.held texts.old) asked.entry.options.file.now asked.entry.options.limit
        (asked_rounds asked.entry.options.rounds) result.status result.runs }
    ensures reported { Reported S.state out.old out.new result.status
        (asked_rounds asked.entry.options.rounds) asked.entry.journal result.runs result.written }
    ensures no_conclusion { result.conclusion ≡ None }
    ensures read { HaveRead F.held F.failed texts.old texts.new result.status }
    ensures watchers { HaveSeen told asked.entry.options.workers (result.status ≢ Status.NoMemory)
        result.runs watchers.old.items watchers.new.items }
{
    match prepare(rt, alloc, texts, asked.options) {
        Ok(job) => run_and_report(rt, alloc, asked, job, out, watchers),
        Err(stop) => stopped(alloc, Status::of(stop)),
    }
}

// Runs the rounds of the job that are asked for, and writes their reports, or their journals.
fn run_and_report<S: Sink, R: Threads + Wait + Sync>(
    rt: &R,
    alloc: Global,
    asked: Run<'_>,
    job: TextJob,
    out: &mut S,
    watchers: &mut Vec<Box<dyn Watch + Send>>,
) -> Ended
    requires graph { IsGraphJob job }
    requires nothing_held { (S.state out.old).held_back ≡ [] }
    ensures ends { JobEnds job (asked_rounds asked.entry.options.rounds) result.status result.runs }
    ensures reported { Reported S.state out.old out.new result.status
        (asked_rounds asked.entry.options.rounds) asked.entry.journal result.runs result.written }
    ensures no_conclusion { result.conclusion ≡ None }
    ensures watchers { HaveSeen told asked.entry.options.workers (result.status ≢ Status.NoMemory)
        result.runs watchers.old.items watchers.new.items }
{
    let RunOptions {
        workers,
        rounds,
        ..
    } = asked.options;
    let RoundsRun { runs, whole } = run_rounds(rt, alloc, workers, rounds, job, watchers);
    let Ok(reason) = last_reason(alloc, runs.as_slice()) else {
        let written = runs.is_empty();
        return after_runs(runs, Status::NoMemory, written);
    };
    let written = deliver_rounds(alloc, out, runs.as_slice(), asked);
    let status = status_of_rounds(whole, reason, written);
    after_runs(runs, status, written.is_ok())
}

// Writes the reports of these rounds, or their journals, in order, and all that is held back of them. Where there is
// none the output is left alone.
fn deliver_rounds<S: Sink>(
    alloc: Global,
    out: &mut S,
    runs: &[FrameRun<TextJob>],
    asked: Run<'_>,
) -> Result<(), SinkFault>
    requires nothing_held { (S.state out.old).held_back ≡ [] }
    requires kept { All (IsKept text_job) runs.now }
    ensures delivers { Delivers (S.state out.old) (S.state out.new)
        (rounds_text (asked_rounds asked.entry.options.rounds) asked.entry.journal runs.now) result }
    ensures none { runs.now ≡ [] → (out.new ≡ out.old) × IsOk result }
{
    if runs.is_empty() {
        return Ok(());
    }
    let written = put_rounds(alloc, out, runs, asked);
    flushed(out, written)
}

// Writes the reports of these rounds, or their journals, in order.
#[tactic(auto, using(outside_io::proofs::Pieces::accepts_nothing))]
fn put_rounds<S: Sink>(
    alloc: Global,
    out: &mut S,
    runs: &[FrameRun<TextJob>],
    asked: Run<'_>,
) -> Result<(), SinkFault>
    requires { All (IsKept text_job) runs.now }
    ensures { Writes (S.state out.old) (S.state out.new)
        (rounds_text (asked_rounds asked.entry.options.rounds) asked.entry.journal runs.now) result }
{
    for place in 0..runs.len() {
        let number = place as u64 + 1;
        if let Err(fault) = put_round(alloc, out, number, &runs[place], asked) {
            return Err(fault);
        }
    }
    Ok(())
}

// Writes the report of a round, or its journal, behind its line, where it has one.
#[tactic(auto, using(outside_io::proofs::Pieces::writes_both, outside_io::proofs::Pieces::writes_no_more))]
fn put_round<S: Sink>(
    alloc: Global,
    out: &mut S,
    number: u64,
    run: &FrameRun<TextJob>,
    asked: Run<'_>,
) -> Result<(), SinkFault>
    requires { IsKept text_job run.now }
    ensures { Writes (S.state out.old) (S.state out.new)
        (round_text (asked_rounds asked.entry.options.rounds) asked.entry.journal (number, run.now)) result }
{
    put_line_before(alloc, out, number, asked.options.rounds)?;
    put_run(alloc, out, run, asked.journal)
}

// Writes the line of a round, where a number of rounds or a word is asked for.
#[tactic(auto, using(outside_io::proofs::Pieces::accepts_nothing, outside_io::proofs::Pieces::writes_nothing))]
fn put_line_before<S: Sink>(
    alloc: Global,
    out: &mut S,
    number: u64,
    rounds: Rounds<'_>,
) -> Result<(), SinkFault>
    ensures { Writes (S.state out.old) (S.state out.new)
        (line_before (asked_rounds rounds.entry) number) result }
{
    match rounds {
        Rounds::Once => Ok(()),
        Rounds::Times(_) | Rounds::Until(_) => {
            let line = line_of_round(alloc, number)?;
            put_piece(out, line.as_slice())
        }
    }
}

// The line of a round of this number.
fn line_of_round(alloc: Global, number: u64) -> Result<Bytes, NoMemory>
    ensures { IfOk result (λ line. line ≡ round_line number) }
{
    let mut line = List::new(alloc);
    add_numbered(&mut line, b"## round ", number)?;
    line.push(b'\n')?;
    Ok(line)
}

// Writes the report of a run, or its journal.
#[tactic(auto, using(outside_io::proofs::Pieces::writes_nothing))]
fn put_run<S: Sink>(
    alloc: Global,
    out: &mut S,
    run: &FrameRun<TextJob>,
    journal: bool,
) -> Result<(), SinkFault>
    requires { IsKept text_job run.now }
    ensures { Writes (S.state out.old) (S.state out.new) (run_text journal run.now) result }
{
    if journal {
        return print_journal(alloc, run.journal.as_slice(), out);
    }
    let reason = reason_of(alloc, run)?;
    put_report(alloc, out, run, &reason)
}
