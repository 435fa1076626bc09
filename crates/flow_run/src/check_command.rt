// The command `check`.
ghost use Rattle.std.specs.Prelude.{◌≡◌, [], None, Some, IfErr, IfOk, slice_index_or};
ghost use Rattle.std.specs.List.{flat_map};
ghost use Rattle.outside_io.specs.Sink.{Writes};
ghost use Rattle.graph_plans.specs.PlanRows.{IsPlan, graph_rows, graphs_of, plan_rows};
ghost use Rattle.pitfall_check.specs.Pitfalls.{BeginsWithoutTokens};
ghost use Rattle.call_status.specs.Delivery.{Delivers};
ghost use Rattle.flow_run.specs.Answers.{HasWritten, conclusion_text};
ghost use Rattle.flow_run.specs.Checks.{AreFindingsOn, AreFindingsOnAll, CheckEnds, IsChecked, findings_count_line, finding_count, finding_line, findings_text, graph_line, graph_lines};
ghost use Rattle.flow_run.specs.PlanFiles.{IsAfterConclusion, StopsBeforePlan};
ghost use Rattle.flow_run.specs.Reads.{FailsBy, HaveRead};

use super::call::{Ended, stopped};
use super::conclusion::{Conclusion, GraphFindings};
use super::inputs::{FILE_LIMIT, plan_in, read_named};
use call_status::{Status, Stop, flushed};
use command_line::Check;
use graph_plans::{Graph, Plan};
use outside_io::{Bytes, List, NoMemory, Sink, SinkFault, Texts, add_numbered, put_piece};
use pitfall_check::{Finding, check};
use std::alloc::Global;

/// Finds how the graphs in a file can go wrong, the top graph and each module, and writes what was found. A graph
/// without a source is checked like others.
pub(crate) fn check_file<F: Texts, S: Sink>(
    alloc: Global,
    asked: Check<'_>,
    texts: &mut F,
    out: &mut S,
) -> Ended
    requires { (S.state out.old).held_back ≡ [] }
    ensures ends { CheckEnds (F.held texts.old) asked.entry.file.now result.status
        result.conclusion }
    ensures output { HasWritten S.state out.old out.new result.status (result.conclusion ≡ None)
        (conclusion_text result.conclusion) result.written }
    ensures no_run { result.runs ≡ [] }
    ensures read { HaveRead F.held F.failed texts.old texts.new result.status }
{
    match findings_in(alloc, texts, asked.file.as_bytes()) {
        Ok(found) => report_findings(alloc, found, out),
        Err(stop) => stopped(alloc, Status::of(stop)),
    }
}

// The findings on the graphs in a file. An `Err` is the first thing that stops the call.
fn findings_in<F: Texts>(
    alloc: Global,
    texts: &mut F,
    file: &[u8],
) -> Result<List<GraphFindings>, Stop>
    ensures checked { IfOk result (IsChecked (F.held texts.old) file.now) }
    ensures stops { IfErr result (StopsBeforePlan (F.held texts.old) file.now) }
    ensures stays { F.held texts.new ≡ F.held texts.old }
    ensures fails { FailsBy result (F.failed texts.old) (F.failed texts.new) }
{
    let bytes = read_named(alloc, texts, file, FILE_LIMIT)?;
    let plan = plan_in(alloc, bytes.as_slice())?;
    Ok(findings_on_all(alloc, &plan)?)
}

// The findings on the top graph of a plan, and then on each module.
fn findings_on_all(alloc: Global, plan: &Plan) -> Result<List<GraphFindings>, NoMemory>
    requires { IsPlan (plan_rows plan.now) }
    ensures { IfOk result (AreFindingsOnAll (graphs_of (plan_rows plan.now))) }
{
    let mut found = List::new(alloc);
    found.push(findings_on(alloc, &plan.top)?)?;
    for module in plan.modules.as_slice() {
        found.push(findings_on(alloc, module)?)?;
    }
    Ok(found)
}

// The findings on a graph.
fn findings_on(alloc: Global, graph: &Graph) -> Result<GraphFindings, NoMemory>
    requires { BeginsWithoutTokens (graph_rows graph.now).net }
    ensures { IfOk result (AreFindingsOn (graph_rows graph.now)) }
{
    let findings = check(alloc, &graph.net)?;
    Ok(GraphFindings {
        name: graph.name.copy()?,
        names: copies(alloc, graph.names.as_slice())?,
        findings,
    })
}

/// The same names once more.
pub(crate) fn copies(alloc: Global, names: &[Bytes]) -> Result<List<Bytes>, NoMemory>
    ensures { IfOk result (λ copies. copies ≡ names.now) }
{
    let mut copies = List::with_room(alloc, names.len())?;
    for name in names {
        copies.push(name.copy()?)?;
    }
    Ok(copies)
}

// Writes what was found.
fn report_findings<S: Sink>(alloc: Global, found: List<GraphFindings>, out: &mut S) -> Ended
    requires { (S.state out.old).held_back ≡ [] }
    ensures after { IsAfterConclusion result.status }
    ensures conclusion { result.conclusion ≡ Some (Conclusion.Findings found) }
    ensures output { HasWritten S.state out.old out.new result.status (result.conclusion ≡ None)
        (conclusion_text result.conclusion) result.written }
    ensures no_run { result.runs ≡ [] }
{
    let (status, written) = match deliver_findings(alloc, out, found.as_slice()) {
        Ok(()) => (Status::Done, true),
        Err(SinkFault::Failed) => (Status::WriteFault, false),
        Err(SinkFault::NoMemory) => (Status::NoMemory, false),
    };
    Ended {
        status,
        runs: List::new(alloc),
        conclusion: Some(Conclusion::Findings(found)),
        written,
    }
}

// Writes what was found to the output, and flushes it.
fn deliver_findings<S: Sink>(
    alloc: Global,
    out: &mut S,
    found: &[GraphFindings],
) -> Result<(), SinkFault>
    requires { (S.state out.old).held_back ≡ [] }
    ensures { Delivers (S.state out.old) (S.state out.new) (findings_text found.now) result }
{
    let written = put_findings(alloc, out, found);
    flushed(out, written)
}

// Writes a line for each finding, and a last one with their number.
#[tactic(auto, using(outside_io::proofs::Pieces::writes_both, outside_io::proofs::Pieces::writes_no_more))]
fn put_findings<S: Sink>(
    alloc: Global,
    out: &mut S,
    found: &[GraphFindings],
) -> Result<(), SinkFault>
    ensures { Writes (S.state out.old) (S.state out.new) (findings_text found.now) result }
{
    put_graphs(alloc, out, found)?;
    put_count(alloc, out, found)
}

// Writes a line for each finding on each graph.
#[tactic(auto, using(outside_io::proofs::Pieces::accepts_nothing))]
fn put_graphs<S: Sink>(alloc: Global, out: &mut S, found: &[GraphFindings]) -> Result<(), SinkFault>
    ensures { Writes (S.state out.old) (S.state out.new) (flat_map graph_lines found.now) result }
{
    for on in found {
        if let Err(fault) = put_graph(alloc, out, on) {
            return Err(fault);
        }
    }
    Ok(())
}

// Writes a line for each finding on a graph.
#[tactic(auto, using(outside_io::proofs::Pieces::accepts_nothing))]
fn put_graph<S: Sink>(alloc: Global, out: &mut S, on: &GraphFindings) -> Result<(), SinkFault>
    ensures { Writes (S.state out.old) (S.state out.new) (graph_lines on.now) result }
{
    let findings = on.findings.as_slice();
    for finding in findings {
        if let Err(fault) = put_finding(alloc, out, on, *finding) {
            return Err(fault);
        }
    }
    Ok(())
}

// Writes the line of a finding on a graph.
#[tactic(auto, using(outside_io::proofs::Pieces::writes_nothing))]
fn put_finding<S: Sink>(
    alloc: Global,
    out: &mut S,
    on: &GraphFindings,
    finding: Finding,
) -> Result<(), SinkFault>
    ensures { Writes (S.state out.old) (S.state out.new) (finding_line on.now finding) result }
{
    let line = line_of_finding(alloc, on, finding)?;
    put_piece(out, line.as_slice())
}

// Writes the line that says how many findings there are.
#[tactic(auto, using(outside_io::proofs::Pieces::writes_nothing))]
fn put_count<S: Sink>(alloc: Global, out: &mut S, found: &[GraphFindings]) -> Result<(), SinkFault>
    ensures { Writes (S.state out.old) (S.state out.new) (findings_count_line (finding_count found.now))
        result }
{
    let line = line_of_count(alloc, count_of(found)?)?;
    put_piece(out, line.as_slice())
}

// How many findings there are, if they can be counted.
fn count_of(found: &[GraphFindings]) -> Result<u64, NoMemory>
    ensures { IfOk result (λ count. count ≡ finding_count found.now) }
{
    let mut count: u64 = 0;
    for on in found {
        let Some(more) = count.checked_add(on.findings.len() as u64) else {
            return Err(NoMemory);
        };
        count = more;
    }
    Ok(count)
}

// The line of a finding on a graph.
fn line_of_finding(alloc: Global, on: &GraphFindings, finding: Finding) -> Result<Bytes, NoMemory>
    ensures { IfOk result (λ line. line ≡ finding_line on.now finding) }
{
    match finding {
        Finding::NoSource => graph_line(alloc, on, b"no source", b""),
        Finding::Mixed(task) => graph_line(alloc, on, b"mixed ", name_of(on, task)),
        Finding::ManyConditions(task) => {
            graph_line(alloc, on, b"many conditions ", name_of(on, task))
        }
        Finding::StrongCycle(task) => graph_line(alloc, on, b"strong cycle ", name_of(on, task)),
        Finding::NeverReached(task) => graph_line(alloc, on, b"never reached ", name_of(on, task)),
    }
}

// The line that says this of a graph, and of a task of it.
fn graph_line(
    alloc: Global,
    on: &GraphFindings,
    what: &[u8],
    task: &[u8],
) -> Result<Bytes, NoMemory>
    ensures { IfOk result (λ line. line ≡ graph_line on.now what.now task.now) }
{
    let mut line = List::new(alloc);
    if !on.name.is_empty() {
        line.add_all(on.name.as_slice())?;
        line.add_all(b": ")?;
    }
    line.add_all(what)?;
    line.add_all(task)?;
    line.push(b'\n')?;
    Ok(line)
}

// The name of a task.
fn name_of(on: &GraphFindings, task: u32) -> &[u8]
    ensures { result.now ≡ slice_index_or on.now.names task [] }
{
    match on.names.get(task as usize) {
        Some(name) => name.as_slice(),
        None => &[],
    }
}

// The line that says how many findings there are.
fn line_of_count(alloc: Global, count: u64) -> Result<Bytes, NoMemory>
    ensures { IfOk result (λ line. line ≡ findings_count_line count) }
{
    let mut line = List::new(alloc);
    add_numbered(&mut line, b"findings ", count)?;
    line.push(b'\n')?;
    Ok(line)
}
