// The command `generate`.
ghost use Rattle.std.specs.Prelude.{◌≡◌, ◌≢◌, ◌≤◌, ◌<◌, ◌*◌, ◌+◌, [], None, All, IfOk, IsOk, length, slice_index_or};
ghost use Rattle.std.specs.Option.{option_and_then, option_map_or};
ghost use Rattle.outside_io.specs.Sink.{Writes};
ghost use Rattle.call_status.specs.Delivery.{Delivers};
ghost use Rattle.command_line.specs.Requests.{once};
ghost use Rattle.command_line.specs.declared.numbers.TheConstants.{GREATEST_LAYERS};
ghost use Rattle.run_frame.specs.Legal.{IsKept};
ghost use Rattle.run_frame.specs.NestedRule.{job_of};
ghost use Rattle.run_frame.specs.Runs.{value_at};
ghost use Rattle.text_ops.specs.Lines.{lines_of};
ghost use Rattle.text_tasks.specs.declared.item.Item.{Item};
ghost use Rattle.text_tasks.specs.Items.{item_text};
ghost use Rattle.text_tasks.specs.JobMeaning.{IsGraphJob, net_of, text_job};
ghost use Rattle.flow_run.specs.Answers.{GenerateEnds, HasWritten, JobEnds};
ghost use Rattle.flow_run.specs.Generated.{IsGeneratedJob, summaries_text, summary_text};
ghost use Rattle.flow_run.specs.Watched.{HaveSeen};
ghost use Rattle.flow_run.specs.inside.RisingValues.{AreRising};

use super::call::{Ended, stopped};
use super::number_line::add_number_line;
use super::report::last_value;
use super::round_ends::{after_runs, last_reason, status_of_rounds};
use super::workers::{RoundsRun, run_rounds};
use call_status::{Status, flushed};
use command_line::{GREATEST_LIMIT, Generate, Rounds};
use graph_generator::{Generated, generate};
use nested_runs::{inner_starts, starts};
use outside_io::{Bytes, List, NoMemory, Sink, SinkFault, put_piece};
use run_frame::{FrameRun, Job, ValueRow, last_ends};
use span_profile::Watch;
use std::alloc::Global;
use std::sync::{Arc, Wait};
use std::thread::Threads;
use text_ops::{Text, line_count};
use text_tasks::{Item, TextJob, TextTable, first_job};

// How many tasks a layer has; those of the loop and of the pipeline come after the layers and the tally.
const LAYER_WIDTH: u32 = 10;

const DONE: u32 = 4;

const PIPELINE: u32 = 6;

/// Runs the generated graph that is asked for once, and writes its summary.
pub(crate) fn run_generated<S: Sink, R: Threads + Wait + Sync>(
    rt: &R,
    alloc: Global,
    asked: Generate,
    out: &mut S,
    watchers: &mut Vec<Box<dyn Watch + Send>>,
) -> Ended
    requires nothing_held { (S.state out.old).held_back ≡ [] }
    ensures ends { GenerateEnds asked.layers result.status result.runs }
    ensures written { HasWritten S.state out.old out.new result.status (result.runs ≡ [])
        (summaries_text asked.layers result.runs) result.written }
    ensures no_conclusion { result.conclusion ≡ None }
    ensures watchers { HaveSeen told asked.workers (result.status ≢ Status.NoMemory)
        result.runs watchers.old.items watchers.new.items }
{
    match generated_job(rt, alloc, asked.layers) {
        Ok(job) => run_and_summarize(rt, alloc, asked, job, out, watchers),
        Err(NoMemory) => stopped(alloc, Status::NoMemory),
    }
}

// Runs the job once, and writes its summary.
fn run_and_summarize<S: Sink, R: Threads + Wait + Sync>(
    rt: &R,
    alloc: Global,
    asked: Generate,
    job: TextJob,
    out: &mut S,
    watchers: &mut Vec<Box<dyn Watch + Send>>,
) -> Ended
    requires job { IsGeneratedJob asked.layers job }
    requires graph { IsGraphJob job }
    requires nothing_held { (S.state out.old).held_back ≡ [] }
    ensures ends { JobEnds job once result.status result.runs }
    ensures written { HasWritten S.state out.old out.new result.status (result.runs ≡ [])
        (summaries_text asked.layers result.runs) result.written }
    ensures no_conclusion { result.conclusion ≡ None }
    ensures watchers { HaveSeen told asked.workers (result.status ≢ Status.NoMemory)
        result.runs watchers.old.items watchers.new.items }
{
    let RoundsRun { runs, whole } = run_rounds(
        rt,
        alloc,
        asked.workers,
        Rounds::Once,
        job,
        watchers,
    );
    let Ok(reason) = last_reason(alloc, runs.as_slice()) else {
        let written = runs.is_empty();
        return after_runs(runs, Status::NoMemory, written);
    };
    let written = deliver_summary(alloc, out, asked.layers, runs.as_slice());
    let status = status_of_rounds(whole, reason, written);
    after_runs(runs, status, written.is_ok())
}

// The job of the generated graph of so many layers.
fn generated_job<R: Wait>(rt: &R, alloc: Global, layers: u64) -> Result<TextJob, NoMemory>
    requires some { 1 ≤ layers }
    requires few { layers ≤ GREATEST_LAYERS }
    ensures job { IfOk result (IsGeneratedJob layers) }
    ensures graph { IfOk result IsGraphJob }
{
    let Generated { plan, text } = generate(alloc, layers)?;
    let mut texts = TextTable::new(alloc)?;
    texts.add(rt, Text::from_lines(alloc, text)?)?;
    let plan = Arc::new(alloc, plan)?;
    let texts = Arc::new(alloc, texts)?;
    Ok(first_job(plan, texts, GREATEST_LIMIT))
}

// Writes the summary of the run, if there is one, and all that is held back of it. Where there is none the output is
// left alone.
fn deliver_summary<S: Sink>(
    alloc: Global,
    out: &mut S,
    layers: u64,
    runs: &[FrameRun<TextJob>],
) -> Result<(), SinkFault>
    requires nothing_held { (S.state out.old).held_back ≡ [] }
    requires kept { All (IsKept text_job) runs.now }
    requires tasks { All (λ run. length (net_of (job_of run)).tasks ≡ 10 * layers + 7) runs.now }
    ensures delivers { Delivers (S.state out.old) (S.state out.new) (summaries_text layers runs.now) result }
    ensures none { runs.now ≡ [] → (out.new ≡ out.old) × IsOk result }
{
    match runs {
        [run, ..] => {
            let written = put_summary(alloc, out, layers, run);
            flushed(out, written)
        }
        [] => Ok(()),
    }
}

// Writes the summary of a run.
#[tactic(auto, using(outside_io::proofs::Pieces::writes_nothing))]
fn put_summary<S: Sink>(
    alloc: Global,
    out: &mut S,
    layers: u64,
    run: &FrameRun<TextJob>,
) -> Result<(), SinkFault>
    requires kept { IsKept text_job run.now }
    requires tasks { length (net_of (job_of run.now)).tasks ≡ 10 * layers + 7 }
    ensures { Writes (S.state out.old) (S.state out.new) (summary_text layers run.now) result }
{
    let summary = summary_of(alloc, layers, run)?;
    put_piece(out, summary.as_slice())
}

// The summary of a run.
fn summary_of(alloc: Global, layers: u64, run: &FrameRun<TextJob>) -> Result<Bytes, NoMemory>
    requires kept { IsKept text_job run.now }
    requires tasks { length (net_of (job_of run.now)).tasks ≡ 10 * layers + 7 }
    ensures { IfOk result (λ summary. summary ≡ summary_text layers run.now) }
{
    let tasks = run.job.net().tasks().len();
    let ends = last_ends(alloc, &run.journal, tasks)?;
    let values = run.values.as_slice();
    let sum = LAYER_WIDTH * layers as u32;
    let mut summary = List::new(alloc);
    add_number_line(&mut summary, b"tasks ", tasks as u64)?;
    add_number_line(&mut summary, b"starts ", starts(run))?;
    add_number_line(&mut summary, b"inner starts ", inner_starts(run))?;
    add_number_line(
        &mut summary,
        b"sum lines ",
        lines_of_last(&ends, values, sum),
    )?;
    add_number_line(
        &mut summary,
        b"done lines ",
        lines_of_last(&ends, values, sum + DONE),
    )?;
    add_number_line(
        &mut summary,
        b"pipe lines ",
        lines_of_last(&ends, values, sum + PIPELINE),
    )?;
    Ok(summary)
}

// How many lines the text has with which a task ended last.
fn lines_of_last(ends: &[Option<u64>], values: &[ValueRow<Item>], task: u32) -> u64
    requires task { task < length ends.now }
    requires rising { AreRising values.now }
    ensures { result ≡ option_map_or (λ (item : Item). length (lines_of (item_text item)))
        (option_and_then (value_at values.now) (slice_index_or ends.now task None)) 0 }
{
    match last_value(ends, values, task) {
        Some(item) => line_count(item.text()),
        None => 0,
    }
}
