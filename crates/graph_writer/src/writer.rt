// The writing of graph files.
ghost use Rattle.std.specs.Prelude.{◌≡◌, ◌<◌, ◌≤◌, All, false, Ok, IfOk, length, map};
ghost use Rattle.serde_json.specs.Data.{depth, string};
ghost use Rattle.serde_json.specs.View.{view};
ghost use Rattle.serde_json.specs.Written.{compact_text, has_float};
ghost use Rattle.graph_plans.specs.PlanRows.{graph_rows, module_names, plan_rows};
ghost use Rattle.graph_file.specs.PlanText.{HasFile, PlanText, json_in};
ghost use Rattle.graph_writer.specs.WrittenPlan.{module_data, op_text, plan_data, plan_text, sem_data, sems_from, sems_named, strings_data, task_data, tasks_data, to_of};
ghost use Rattle.graph_writer.specs.inside.Writer.{HasUtf8, HasWritableNames, IsString, IsWritable, IsWritableGraph, end_name, names_at, op_text_of, task_object};

use crate::op_writer::{WrittenOp, string_value, written_op};
use graph_plans::{Graph, Op, Plan};
use outside_io::{Bytes, NoMemory};
use serde_json::{Value, json, put};
use std::alloc::{AllocError, Global};

/// The bytes of a graph file for a plan: compact JSON of version 2, with every field that may be missing written out,
/// the fields of each object in the order of their bytes, and the semaphores of a task by rising number.
pub fn write_graph(alloc: Global, plan: &Plan) -> Result<Bytes, NoMemory>
    requires { HasFile (plan_rows plan.now) }
    ensures text { IfOk result (λ bytes. bytes ≡ plan_text (plan_rows plan.now)) }
    // What is written is read as the plan.
    ensures reads_back { IfOk result (λ bytes. PlanText bytes (plan_rows plan.now)) }
{
    let file = file_value(alloc, plan)?;
    file_bytes(alloc, &file)
}

// The text of a value.
fn file_bytes(alloc: Global, file: &Value) -> Result<Bytes, NoMemory>
    requires shallow { depth (view file.now) ≤ 127 }
    requires whole { has_float (view file.now) ≡ false }
    ensures text { IfOk result (λ bytes. bytes ≡ compact_text (view file.now)) }
    ensures reads_back { IfOk result (λ bytes. json_in bytes ≡ Ok (view file.now)) }
{
    let bytes = file.to_vec(alloc)?;
    Bytes::from_slice(alloc, bytes.as_slice())
}

fn file_value(alloc: Global, plan: &Plan) -> Result<Value, AllocError>
    requires { IsWritable (plan_rows plan.now) }
    ensures { IfOk result (λ value. view value ≡ plan_data (plan_rows plan.now)) }
{
    let modules = module_values(alloc, plan)?;
    let sems = sem_values(alloc, plan.top.sem_names.as_slice(), plan.top.net.sems())?;
    let tasks = task_values(alloc, plan, &plan.top)?;
    json!(in alloc; {
        "modules": Value::Array(modules),
        "semaphores": Value::Array(sems),
        "tasks": Value::Array(tasks),
        "version": 2u64
    })
}

fn module_values(alloc: Global, plan: &Plan) -> Result<Vec<Value>, AllocError>
    requires { IsWritable (plan_rows plan.now) }
    ensures { IfOk result (λ values. map view values.items ≡ map (module_data (plan_rows plan.now)) (plan_rows plan.now).modules) }
{
    let graphs = plan.modules.as_slice();
    let mut values = Vec::new(alloc);
    for graph in graphs {
        values.push(module_value(alloc, plan, graph)?)?;
    }
    Ok(values)
}

fn module_value(alloc: Global, plan: &Plan, graph: &Graph) -> Result<Value, AllocError>
    requires name { IsString graph.now.name }
    requires graph { IsWritableGraph plan.now.texts (module_names (plan_rows plan.now))
        (graph_rows graph.now) }
    ensures { IfOk result (λ value. view value
        ≡ module_data (plan_rows plan.now) (graph_rows graph.now)) }
{
    let name = string_value(alloc, &graph.name)?;
    let sems = sem_values(alloc, graph.sem_names.as_slice(), graph.net.sems())?;
    let tasks = task_values(alloc, plan, graph)?;
    json!(in alloc; {
        "name": name,
        "semaphores": Value::Array(sems),
        "tasks": Value::Array(tasks)
    })
}

// The semaphores with these names and maxima.
fn sem_values(alloc: Global, names: &[Bytes], maxima: &[u32]) -> Result<Vec<Value>, AllocError>
    requires strings { All IsString names.now }
    requires each { length maxima.now ≡ length names.now }
    ensures { IfOk result (λ values. map view values.items ≡ sems_from names.now maxima.now) }
{
    let mut values = Vec::new(alloc);
    for (sem, name) in names.iter().enumerate() {
        values.push(sem_value(alloc, name, maxima[sem])?)?;
    }
    Ok(values)
}

fn sem_value(alloc: Global, name: &Bytes, max: u32) -> Result<Value, AllocError>
    requires { IsString name.now }
    ensures { IfOk result (λ value. view value ≡ sem_data name.now max) }
{
    let name = string_value(alloc, name)?;
    json!(in alloc; {"max": u64::from(max), "name": name})
}

// The tasks of a graph.
fn task_values(alloc: Global, plan: &Plan, graph: &Graph) -> Result<Vec<Value>, AllocError>
    requires { IsWritableGraph plan.now.texts (module_names (plan_rows plan.now))
        (graph_rows graph.now) }
    ensures { IfOk result (λ values. map view values.items
        ≡ tasks_data (plan_rows plan.now) (graph_rows graph.now)) }
{
    let mut values = Vec::new(alloc);
    for (task, op) in graph.ops.as_slice().iter().enumerate() {
        values.push(task_value(alloc, plan, graph, task as u32, op)?)?;
    }
    Ok(values)
}

// A task of this number and operation.
fn task_value(
    alloc: Global,
    plan: &Plan,
    graph: &Graph,
    task: u32,
    op: &Op,
) -> Result<Value, AllocError>
    requires graph { HasWritableNames (graph_rows graph.now) }
    requires within { task < length graph.now.names }
    requires op { HasUtf8 plan.now.texts (module_names (plan_rows plan.now)) op.now }
    ensures { IfOk result (λ value. view value
        ≡ task_data (op_text plan.now.texts (module_names (plan_rows plan.now)) op.now)
        (names_at (graph_rows graph.now) task)) }
{
    let name = string_value(alloc, &graph.names[task as usize])?;
    let op = written_op(alloc, plan.texts.as_slice(), plan.modules.as_slice(), op)?;
    let to = to_values(alloc, graph, task)?;
    let row = &graph.net.tasks()[task as usize];
    let takes = sems_value(alloc, graph, row.takes.as_slice())?;
    let puts = sems_value(alloc, graph, row.puts.as_slice())?;
    task_object(alloc, op, name, Value::Array(to), takes, puts)
}

fn task_object(
    alloc: Global,
    op: WrittenOp,
    name: Value,
    to: Value,
    takes: Value,
    puts: Value,
) -> Result<Value, AllocError>
    ensures { IfOk result (λ value. view value
        ≡ task_object (op_text_of op) (view name) (view to) (view takes) (view puts)) }
{
    let mut members = op.own;
    put(&mut members, alloc, "to", to)?;
    put(&mut members, alloc, "release", puts)?;
    put(
        &mut members,
        alloc,
        "op",
        Value::try_from_str(alloc, op.name)?,
    )?;
    put(&mut members, alloc, "name", name)?;
    put(&mut members, alloc, "acquire", takes)?;
    Ok(Value::Object(members))
}

// The names of these semaphores.
fn sems_value(alloc: Global, graph: &Graph, sems: &[u32]) -> Result<Value, AllocError>
    requires names { All IsString graph.now.sem_names }
    requires within { All (λ s. s < length graph.now.sem_names) sems.now }
    ensures { IfOk result (λ value. view value
        ≡ strings_data (sems_named (graph_rows graph.now) sems.now)) }
{
    let mut values = Vec::new(alloc);
    for sem in sems {
        values.push(string_value(alloc, &graph.sem_names[*sem as usize])?)?;
    }
    Ok(Value::Array(values))
}

// The names of the tasks to which the edges of a task lead.
fn to_values(alloc: Global, graph: &Graph, task: u32) -> Result<Vec<Value>, AllocError>
    requires graph { HasWritableNames (graph_rows graph.now) }
    requires within { task < length graph.now.names }
    ensures { IfOk result (λ values. map view values.items
        ≡ map string (to_of (graph_rows graph.now) task)) }
{
    let mut values = Vec::new(alloc);
    for edge in graph.net.out_edges(task) {
        values.push(end_value(alloc, graph, *edge)?)?;
    }
    Ok(values)
}

// The name of the task to which an edge leads.
fn end_value(alloc: Global, graph: &Graph, edge: u32) -> Result<Value, AllocError>
    requires graph { HasWritableNames (graph_rows graph.now) }
    requires within { edge < length (graph_rows graph.now).net.edges }
    ensures { IfOk result (λ value. view value ≡ string (end_name (graph_rows graph.now) edge)) }
{
    let end = graph.net.edges()[edge as usize].to;
    string_value(alloc, &graph.names[end as usize])
}
