// The report of a run: what each task that leads to no other ended with.
ghost use Rattle.std.specs.Prelude.{◌≡◌, ◌<◌, ◌++◌, [], None, length, IfOk, slice_index_or};
ghost use Rattle.std.specs.Option.{option_and_then, option_copied, option_map};
ghost use Rattle.outside_io.specs.Sink.{Writes};
ghost use Rattle.run_frame.specs.Legal.{IsKept};
ghost use Rattle.run_frame.specs.NestedRule.{job_of, journal_of};
ghost use Rattle.run_frame.specs.Runs.{value_at, values_of};
ghost use Rattle.text_tasks.specs.JobMeaning.{names_of, net_of, text_job};
ghost use Rattle.nested_runs.specs.Reasons.{run_reason};
ghost use Rattle.graph_plans.specs.PlanRows.{plan_rows};
ghost use Rattle.call_status.specs.Reasons.{reason_line};
ghost use Rattle.report_laws.specs.Output.{ended_mark, header, outcome, report, task_report, report_of};
ghost use Rattle.flow_run.specs.inside.RisingValues.{AreRising};

use call_status::add_reason_line;
use graph_plans::Plan;
use nested_runs::Reason;
use outside_io::{Bytes, List, NoMemory, Sink, SinkFault, put_piece};
use run_frame::{FrameRun, Job, ValueRow, last_ends};
use std::alloc::Global;
use task_graph::Net;
use text_tasks::{Item, TextJob};

// The marks with which the line of a task begins that has ended, and of one that hasn't.
const ENDED: &[u8] = b"== ";

const NOT_ENDED: &[u8] = b"-- ";

/// Writes the report of a run that came to its end for this reason: what each task ended with that leads to no other,
/// and why the run was cut short, if it was. After an `Err` the sink has a prefix of the report.
#[tactic(auto, using(outside_io::proofs::Pieces::writes_both, outside_io::proofs::Pieces::writes_no_more))]
pub fn put_report<S: Sink>(
    alloc: Global,
    out: &mut S,
    run: &FrameRun<TextJob>,
    reason: &Reason,
) -> Result<(), SinkFault>
    requires kept { IsKept text_job run.now }
    requires reason { run_reason text_job run.now ≡ reason.now }
    ensures { Writes (S.state out.old) (S.state out.new) (report_of run.now) result }
{
    put_tasks(alloc, out, run)?;
    put_reason(alloc, out, run.job.plan(), reason)
}

// Writes the line that tells why a run was cut short, if it was.
#[tactic(auto, using(outside_io::proofs::Pieces::writes_nothing))]
fn put_reason<S: Sink>(
    alloc: Global,
    out: &mut S,
    plan: Option<&Plan>,
    reason: &Reason,
) -> Result<(), SinkFault>
    ensures { Writes (S.state out.old) (S.state out.new)
        (reason_line (option_map plan_rows (option_copied plan.entry)) reason.now) result }
{
    let mut line = List::new(alloc);
    add_reason_line(&mut line, plan, reason)?;
    put_value(out, line.as_slice())
}

// Writes what each task ended with that leads to no other: its name on a line, and its last value below it, in the
// order of the tasks' numbers. A task that hasn't ended has a line alone.
#[tactic(auto, using(outside_io::proofs::Pieces::accepts_nothing, outside_io::proofs::Pieces::writes_nothing))]
fn put_tasks<S: Sink>(alloc: Global, out: &mut S, run: &FrameRun<TextJob>) -> Result<(), SinkFault>
    requires { IsKept text_job run.now }
    ensures { Writes (S.state out.old) (S.state out.new)
        (report (names_of (job_of run.now)) (net_of (job_of run.now)) (journal_of run.now)
        (values_of run.now)) result }
{
    let net = run.job.net();
    let names = run.job.names();
    let tasks = net.tasks().len();
    let ends = last_ends(alloc, &run.journal, tasks)?;
    for task in 0..tasks as u32 {
        let value = last_value(&ends, run.values.as_slice(), task);
        if let Err(fault) = put_task(alloc, out, net, task, task_name(names, task), value) {
            return Err(fault);
        }
    }
    Ok(())
}

/// The value of a task's last End.
pub(crate) fn last_value<'a>(
    ends: &[Option<u64>],
    values: &'a [ValueRow<Item>],
    task: u32,
) -> Option<&'a Item>
    requires task { task < length ends.now }
    requires rising { AreRising values.now }
    ensures { option_copied result
        ≡ option_and_then (value_at values.now) (slice_index_or ends.now task None) }
{
    value_in(values, ends[task as usize]?)
}

// The value of the row with this place, where one has it.
fn value_in(rows: &[ValueRow<Item>], place: u64) -> Option<&Item>
    requires { AreRising rows.now }
    ensures { option_copied result ≡ value_at rows.now place }
{
    match rows.binary_search_by_key(&place, |row| row.place) {
        Ok(at) => Some(&rows[at].value),
        Err(_) => None,
    }
}

// The name of a task.
fn task_name(names: &[Bytes], task: u32) -> &[u8]
    ensures { result.now ≡ slice_index_or names.now task [] }
{
    match names.get(task as usize) {
        Some(name) => name.as_slice(),
        None => &[],
    }
}

// Writes what the report has of a task.
#[tactic(auto, using(outside_io::proofs::Pieces::accepts_nothing))]
fn put_task<S: Sink>(
    alloc: Global,
    out: &mut S,
    net: &Net,
    task: u32,
    name: &[u8],
    value: Option<&Item>,
) -> Result<(), SinkFault>
    requires { task < length net.now.tasks }
    ensures { Writes (S.state out.old) (S.state out.new)
        (task_report net.now task name.now (option_copied value.entry)) result }
{
    if net.out_edges(task).is_empty() {
        put_outcome(alloc, out, name, value)
    } else {
        Ok(())
    }
}

// Writes a task's line, and its value below it where it has one.
fn put_outcome<S: Sink>(
    alloc: Global,
    out: &mut S,
    name: &[u8],
    value: Option<&Item>,
) -> Result<(), SinkFault>
    ensures { Writes (S.state out.old) (S.state out.new)
        (outcome name.now (option_copied value.entry)) result }
{
    match value {
        Some(item) => put_ended(alloc, out, name, item.text().as_slice()),
        None => put_header(alloc, out, NOT_ENDED, name),
    }
}

// Writes the line of a task that has ended, and its value.
#[tactic(auto, using(outside_io::proofs::Pieces::writes_nothing))]
fn put_ended<S: Sink>(alloc: Global, out: &mut S, name: &[u8], text: &[u8]) -> Result<(), SinkFault>
    ensures { Writes (S.state out.old) (S.state out.new) (header ended_mark name.now ++ text.now)
        result }
{
    let line = header_line(alloc, ENDED, name)?;
    put_both(out, line.as_slice(), text)
}

// Writes a line and a value.
#[tactic(auto, using(outside_io::proofs::Pieces::writes_both, outside_io::proofs::Pieces::writes_no_more))]
fn put_both<S: Sink>(out: &mut S, line: &[u8], text: &[u8]) -> Result<(), SinkFault>
    ensures { Writes (S.state out.old) (S.state out.new) (line.now ++ text.now) result }
{
    put_piece(out, line)?;
    put_value(out, text)
}

// Writes a mark and a name on a line.
#[tactic(auto, using(outside_io::proofs::Pieces::writes_nothing))]
fn put_header<S: Sink>(
    alloc: Global,
    out: &mut S,
    mark: &[u8],
    name: &[u8],
) -> Result<(), SinkFault>
    ensures { Writes (S.state out.old) (S.state out.new) (header mark.now name.now) result }
{
    let line = header_line(alloc, mark, name)?;
    put_piece(out, line.as_slice())
}

// A line of a mark and a name.
fn header_line(alloc: Global, mark: &[u8], name: &[u8]) -> Result<Bytes, NoMemory>
    ensures { IfOk result (λ line. line ≡ header mark.now name.now) }
{
    let mut line = List::from_slice(alloc, mark)?;
    line.add_all(name)?;
    line.push(b'\n')?;
    Ok(line)
}

/// Writes a value, where it isn't empty.
#[tactic(auto, using(outside_io::proofs::Pieces::accepts_nothing))]
pub(crate) fn put_value<S: Sink>(out: &mut S, text: &[u8]) -> Result<(), SinkFault>
    ensures { Writes (S.state out.old) (S.state out.new) text.now result }
{
    if text.is_empty() {
        Ok(())
    } else {
        put_piece(out, text)
    }
}
