// From the name of a graph file to a job that is ready to run.
ghost use Rattle.std.specs.Prelude.{◌≡◌, [], IfOk, IfErr};
ghost use Rattle.graph_plans.specs.PlanRows.{IsPlan, plan_rows};
ghost use Rattle.graph_file.specs.PlanText.{PlanText};
ghost use Rattle.text_tasks.specs.JobMeaning.{IsGraphJob, IsTextJob};
ghost use Rattle.flow_run.specs.Reads.{FailsBy};
ghost use Rattle.flow_run.specs.Requests.{HasStart, IsAdded, IsHeld, IsRequestedJob, StopsAtBytes, StopsAtName, StopsAtPlan, StopsAtText, StopsBefore, TextsAre, text_limit};

use call_status::{Stop, graph_refusal};
use command_line::RunOptions;
use graph_file::read_graph;
use graph_plans::{Plan, no_source};
use outside_io::{Bytes, Found, List, Texts, TextsFault};
use std::alloc::Global;
use std::sync::{Arc, Wait};
use text_ops::Text;
use text_tasks::{TextJob, TextTable, first_job};

/// The most bytes of a graph file.
pub const FILE_LIMIT: u64 = 4_194_304;

/// The most bytes of a text.
pub const TEXT_LIMIT: u64 = 16_777_215;

/// The job of the run that is asked for, with its texts, which are read in the order in which the graph file first
/// names them. An `Err` is the first thing that stops the call.
pub fn prepare<F: Texts, R: Wait>(
    rt: &R,
    alloc: Global,
    texts: &mut F,
    asked: RunOptions<'_>,
) -> Result<TextJob, Stop>
    ensures job { IfOk result IsTextJob }
    ensures graph { IfOk result IsGraphJob }
    ensures requested { IfOk result
        (IsRequestedJob (F.held texts.old) asked.entry.file.now asked.entry.limit) }
    ensures stops { IfErr result (StopsBefore (F.held texts.old) asked.entry.file.now) }
    ensures stays { F.held texts.new ≡ F.held texts.old }
    ensures fails { FailsBy result (F.failed texts.old) (F.failed texts.new) }
{
    let bytes = read_named(alloc, texts, asked.file.as_bytes(), FILE_LIMIT)?;
    let plan = read_plan(alloc, bytes.as_slice())?;
    let empty = TextTable::new(alloc)?;
    let table = read_texts(rt, alloc, texts, empty, plan.texts.as_slice())?;
    let plan = Arc::new(alloc, plan)?;
    let table = Arc::new(alloc, table)?;
    Ok(first_job(plan, table, asked.limit))
}

/// The text of a name, if it has at most so many bytes.
pub(crate) fn read_named<F: Texts>(
    alloc: Global,
    texts: &mut F,
    name: &[u8],
    max: u64,
) -> Result<Bytes, Stop>
    ensures held { IfOk result (IsHeld (F.held texts.old) name.now max) }
    ensures stops { IfErr result (StopsAtName (F.held texts.old) name.now max) }
    ensures stays { F.held texts.new ≡ F.held texts.old }
    ensures fails { FailsBy result (F.failed texts.old) (F.failed texts.new) }
{
    match texts.read(alloc, name, max) {
        Ok(Found::Text(bytes)) => Ok(bytes),
        Ok(Found::Missing) => Err(Stop::NoText(List::from_slice(alloc, name)?)),
        Ok(Found::Longer) => Err(Stop::LongText(List::from_slice(alloc, name)?)),
        Err(TextsFault::Failed) => Err(Stop::ReadFault(List::from_slice(alloc, name)?)),
        Err(TextsFault::NoMemory) => Err(Stop::NoMemory),
    }
}

/// The plan for which these bytes stand, if each of its graphs that has tasks has one to begin with.
#[tactic(auto, using(crate::proofs::Preparing::no_plan))]
pub(crate) fn read_plan(alloc: Global, bytes: &[u8]) -> Result<Plan, Stop>
    ensures plan { IfOk result (λ plan. PlanText bytes.now (plan_rows plan)) }
    ensures rules { IfOk result (λ plan. IsPlan (plan_rows plan)) }
    ensures source { IfOk result (λ plan. HasStart (plan_rows plan)) }
    ensures stops { IfErr result (StopsAtBytes bytes.now) }
{
    let plan = plan_in(alloc, bytes)?;
    match no_source(&plan) {
        None => Ok(plan),
        Some(spot) => Err(Stop::NoSource(spot)),
    }
}

/// The plan for which these bytes stand.
pub(crate) fn plan_in(alloc: Global, bytes: &[u8]) -> Result<Plan, Stop>
    ensures plan { IfOk result (λ plan. PlanText bytes.now (plan_rows plan)) }
    ensures rules { IfOk result (λ plan. IsPlan (plan_rows plan)) }
    ensures stops { IfErr result (StopsAtPlan bytes.now) }
{
    match read_graph(alloc, bytes) {
        Ok(plan) => Ok(plan),
        Err(error) => Err(graph_refusal(error)),
    }
}

// A table without a text, filled with the texts of these names. Its caller makes it, since what stops the reading of
// texts stops it at a name.
fn read_texts<F: Texts, R: Wait>(
    rt: &R,
    alloc: Global,
    texts: &mut F,
    mut table: TextTable,
    names: &[Bytes],
) -> Result<TextTable, Stop>
    requires { table ≡ [] }
    ensures are { IfOk result (TextsAre (F.held texts.old) names.now) }
    ensures stops { IfErr result (StopsAtText (F.held texts.old) names.now) }
    ensures stays { F.held texts.new ≡ F.held texts.old }
    ensures fails { FailsBy result (F.failed texts.old) (F.failed texts.new) }
{
    for name in names {
        if let Err(stop) = add_text(rt, alloc, texts, &mut table, name) {
            return Err(stop);
        }
    }
    Ok(table)
}

// Adds the text of a name, with an end to its last line.
fn add_text<F: Texts, R: Wait>(
    rt: &R,
    alloc: Global,
    texts: &mut F,
    table: &mut TextTable,
    name: &Bytes,
) -> Result<(), Stop>
    ensures added { IfOk result (λ _. IsAdded (F.held texts.old) name.now table.old table.new) }
    ensures stops { IfErr result (StopsAtName (F.held texts.old) name.now text_limit) }
    ensures stays { F.held texts.new ≡ F.held texts.old }
    ensures fails { FailsBy result (F.failed texts.old) (F.failed texts.new) }
{
    let bytes = read_named(alloc, texts, name.as_slice(), TEXT_LIMIT)?;
    table.add(rt, Text::from_bytes(alloc, bytes)?)?;
    Ok(())
}
