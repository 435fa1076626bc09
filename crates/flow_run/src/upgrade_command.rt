// The command `upgrade`.
ghost use Rattle.std.specs.Prelude.{◌≡◌, [], None, Some, IfErr, IfOk};
ghost use Rattle.flow_run.specs.Answers.{HasWritten, conclusion_text};
ghost use Rattle.flow_run.specs.PlanFiles.{IsAfterConclusion, StopsBeforePlan};
ghost use Rattle.flow_run.specs.Reads.{FailsBy, HaveRead};
ghost use Rattle.flow_run.specs.Upgrades.{IsUpgraded, UpgradeEnds};

use super::call::{Ended, stopped};
use super::conclusion::Conclusion;
use super::inputs::{FILE_LIMIT, plan_in, read_named};
use call_status::{Status, Stop, deliver};
use command_line::Upgrade;
use graph_writer::write_graph;
use outside_io::{Bytes, List, Sink, SinkFault, Texts};
use std::alloc::Global;

/// Writes the graph in a file as a graph file of the newest version, for the same plan. A graph without a source is
/// written like others.
pub(crate) fn upgrade_file<F: Texts, S: Sink>(
    alloc: Global,
    asked: Upgrade<'_>,
    texts: &mut F,
    out: &mut S,
) -> Ended
    requires { (S.state out.old).held_back ≡ [] }
    ensures ends { UpgradeEnds (F.held texts.old) asked.entry.file.now result.status
        result.conclusion }
    ensures output { HasWritten S.state out.old out.new result.status (result.conclusion ≡ None)
        (conclusion_text result.conclusion) result.written }
    ensures no_run { result.runs ≡ [] }
    ensures read { HaveRead F.held F.failed texts.old texts.new result.status }
{
    match upgraded(alloc, texts, asked.file.as_bytes()) {
        Ok(text) => write_upgraded(alloc, text, out),
        Err(stop) => stopped(alloc, Status::of(stop)),
    }
}

// The bytes that are written for the plan in a file. An `Err` is the first thing that stops the call.
fn upgraded<F: Texts>(alloc: Global, texts: &mut F, file: &[u8]) -> Result<Bytes, Stop>
    ensures upgraded { IfOk result (IsUpgraded (F.held texts.old) file.now) }
    ensures stops { IfErr result (StopsBeforePlan (F.held texts.old) file.now) }
    ensures stays { F.held texts.new ≡ F.held texts.old }
    ensures fails { FailsBy result (F.failed texts.old) (F.failed texts.new) }
{
    let bytes = read_named(alloc, texts, file, FILE_LIMIT)?;
    let plan = plan_in(alloc, bytes.as_slice())?;
    Ok(write_graph(alloc, &plan)?)
}

// Writes these bytes to the output in one piece, and flushes it.
fn write_upgraded<S: Sink>(alloc: Global, text: Bytes, out: &mut S) -> Ended
    requires { (S.state out.old).held_back ≡ [] }
    ensures after { IsAfterConclusion result.status }
    ensures conclusion { result.conclusion ≡ Some (Conclusion.GraphFile text) }
    ensures output { HasWritten S.state out.old out.new result.status (result.conclusion ≡ None)
        (conclusion_text result.conclusion) result.written }
    ensures no_run { result.runs ≡ [] }
{
    let (status, written) = match deliver(out, text.as_slice()) {
        Ok(()) => (Status::Done, true),
        Err(SinkFault::Failed) => (Status::WriteFault, false),
        Err(SinkFault::NoMemory) => (Status::NoMemory, false),
    };
    Ended {
        status,
        runs: List::new(alloc),
        conclusion: Some(Conclusion::GraphFile(text)),
        written,
    }
}
