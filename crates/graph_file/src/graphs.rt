// The graphs of a plan.
ghost use Rattle.std.specs.Prelude.{◌≡◌, ◌<◌, [], IfOk, length, map, slice_index_or};
ghost use Rattle.graph_plans.specs.PlanRows.{graph_rows, plan_rows};
ghost use Rattle.graph_file.specs.PlanText.{file_texts, graph_with, graphs_with, names_of_modules, numbered, ops_of, plan_with};
ghost use Rattle.graph_file.specs.inside.Drafts.{AreReady, IsReady, IsReadyFile};
ghost use Rattle.graph_file.specs.inside.Lookups.{IsIndex};
ghost use Rattle.graph_drafts.specs.inside.Reading.{draft_rows, file_op_row, file_rows, strings, task_text};
ghost use Rattle.graph_file.specs.inside.Reader.{numbers_rows};

use crate::lookups::{Index, names_of_tasks, number_among};
use crate::nets::{edges_of, net_with};
use crate::numbers::{Numbers, TaskNumbers};
use graph_drafts::{Draft, FileDraft, FileOp, FileTask, u32_of};
use graph_plans::{Graph, Op, Plan};
use outside_io::{Bytes, List, NoMemory};
use std::alloc::Global;
use std::sync::Arc;
use task_graph::Net;

/// The plan of these graphs, whose tasks name what has these numbers.
pub(crate) fn plan_with(
    alloc: Global,
    file: FileDraft<'_>,
    numbers: &Numbers,
    modules: &Index<'_>,
    texts: &Index<'_>,
) -> Result<Plan, NoMemory>
    requires modules { IsIndex modules.now }
    requires texts { IsIndex texts.now }
    requires names { strings modules.now.names ≡ names_of_modules (file_rows file) }
    requires mentions { strings texts.now.names ≡ file_texts (file_rows file) }
    requires ready { IsReadyFile (file_rows file) (numbers_rows numbers.now) }
    ensures { IfOk result (λ plan. plan_rows plan
        ≡ plan_with (file_rows file.entry) (numbers_rows numbers.now)) }
{
    let FileDraft {
        top,
        modules: drafts,
    } = file;
    let top = graph_with(alloc, top, numbers.top.as_slice(), modules, texts)?;
    let graphs = graphs_with(alloc, drafts, numbers.modules.as_slice(), modules, texts)?;
    Ok(Plan {
        top,
        modules: graphs,
        texts: copied_names(alloc, texts.names.as_slice())?,
    })
}

fn graphs_with(
    alloc: Global,
    drafts: Vec<Draft<'_>>,
    numbers: &[List<TaskNumbers>],
    modules: &Index<'_>,
    texts: &Index<'_>,
) -> Result<List<Graph>, NoMemory>
    requires modules { IsIndex modules.now }
    requires texts { IsIndex texts.now }
    requires ready { AreReady (strings modules.now.names) (map draft_rows drafts.items) numbers.now }
    ensures { IfOk result (λ graphs. map graph_rows graphs
        ≡ graphs_with (strings modules.now.names) (strings texts.now.names)
        (map draft_rows drafts.entry.items) numbers.now) }
{
    let mut graphs = List::with_room(alloc, drafts.len())?;
    for draft in drafts {
        let own = numbers_at(numbers, graphs.len());
        graphs.push(graph_with(alloc, draft, own, modules, texts)?)?;
    }
    Ok(graphs)
}

// The numbers of a graph's tasks.
fn numbers_at(numbers: &[List<TaskNumbers>], graph: usize) -> &[TaskNumbers]
    requires { graph < length numbers.now }
    ensures { result.now ≡ slice_index_or numbers.now graph [] }
{
    numbers[graph].as_slice()
}

// The graph of a draft, whose tasks name what has these numbers.
fn graph_with(
    alloc: Global,
    draft: Draft<'_>,
    numbers: &[TaskNumbers],
    modules: &Index<'_>,
    texts: &Index<'_>,
) -> Result<Graph, NoMemory>
    requires modules { IsIndex modules.now }
    requires texts { IsIndex texts.now }
    requires ready { IsReady (strings modules.now.names) (draft_rows draft) numbers.now }
    ensures { IfOk result (λ graph. graph_rows graph
        ≡ graph_with (strings modules.now.names) (strings texts.now.names)
        (draft_rows draft.entry) numbers.now) }
{
    let name = Bytes::from_slice(alloc, draft.name.as_bytes())?;
    let names = task_names(alloc, draft.tasks.as_slice())?;
    let sem_names = copied_names(alloc, draft.sem_names.as_slice())?;
    let ops = ops_of(alloc, draft.tasks, modules, texts)?;
    let edges = edges_of(alloc, numbers)?;
    let net = net_with(
        alloc,
        draft.sems.as_slice(),
        ops.as_slice(),
        numbers,
        edges.as_slice(),
    )?;
    graph_of(alloc, name, names, ops, sem_names, net)
}

// A graph with these parts.
fn graph_of(
    alloc: Global,
    name: Bytes,
    names: List<Bytes>,
    ops: List<Op>,
    sem_names: List<Bytes>,
    net: Net,
) -> Result<Graph, NoMemory>
    ensures { IfOk result (λ graph. graph_rows graph
        ≡ record { name = name; names = names; ops = ops; sem_names = sem_names; net = net }) }
{
    let net = Arc::new(alloc, net)?;
    Ok(Graph {
        name,
        names,
        ops,
        sem_names,
        net,
    })
}

// The operations of these tasks.
fn ops_of(
    alloc: Global,
    tasks: Vec<FileTask<'_>>,
    modules: &Index<'_>,
    texts: &Index<'_>,
) -> Result<List<Op>, NoMemory>
    requires modules { IsIndex modules.now }
    requires texts { IsIndex texts.now }
    ensures { IfOk result (λ ops. ops
        ≡ ops_of (strings modules.now.names) (strings texts.now.names)
        (map task_text tasks.entry.items)) }
{
    let mut ops = List::with_room(alloc, tasks.len())?;
    for task in tasks {
        ops.push(numbered(task.op, modules, texts))?;
    }
    Ok(ops)
}

// The operation as a plan has it.
fn numbered(op: FileOp<'_>, modules: &Index<'_>, texts: &Index<'_>) -> Op
    requires modules { IsIndex modules.now }
    requires texts { IsIndex texts.now }
    ensures { result ≡ numbered (strings modules.now.names) (strings texts.now.names)
        (file_op_row op.entry) }
{
    match op {
        FileOp::Reads(text) => Op::Read(u32_of(number_among(texts, text))),
        FileOp::Runs(name) => Op::Module(u32_of(number_among(modules, name))),
        FileOp::Does(op) => op,
    }
}

fn task_names(alloc: Global, tasks: &[FileTask<'_>]) -> Result<List<Bytes>, NoMemory>
    ensures { IfOk result (λ names. names ≡ map (λ task. task.names.name.now) tasks.now) }
{
    let names = names_of_tasks(alloc, tasks)?;
    copied_names(alloc, names.as_slice())
}

fn copied_names(alloc: Global, names: &[&str]) -> Result<List<Bytes>, NoMemory>
    ensures { IfOk result (λ copies. copies ≡ strings names.now) }
{
    let mut copies = List::with_room(alloc, names.len())?;
    for name in names {
        copies.push(Bytes::from_slice(alloc, name.as_bytes())?)?;
    }
    Ok(copies)
}
