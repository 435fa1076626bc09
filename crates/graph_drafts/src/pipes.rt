// The pipelines in a graph file.
ghost use Rattle.std.specs.Prelude.{◌≡◌, [], codes, map, option_and_then, option_map, Some};
ghost use Rattle.std.specs.Option.{option_map_or};
ghost use Rattle.serde_json.specs.Find.{as_bool, get};
ghost use Rattle.json_values.specs.inside.View.{view};
ghost use Rattle.graph_drafts.specs.Contents.{defer_objects_of, part_size_of, pipe_lines_of, target_items_of, targets_of, token_number_of, whole_of};
ghost use Rattle.graph_drafts.specs.Fields.{allowed, needed};
ghost use Rattle.graph_drafts.specs.OpRows.{add_defer, add_pipe, defers_in, line_rows, may_have, op_called, op_in, pipe_in, pipes_in, text_rows, used_by};
ghost use Rattle.graph_drafts.specs.Steps.{walk};
ghost use Rattle.graph_drafts.specs.inside.Reading.{Leads, Reads, ReadsAs, put_each};
ghost use Rattle.graph_drafts.specs.inside.Reader.{found_line_op, pipe_rows};

use crate::bad_fields::bad_field;
use crate::contents::{list_of, objects_of, whole_of};
use crate::fields::{objects_in, part_size_of};
use crate::file_op::{FoundOp, with};
use crate::ops::{op_name, read_text_op};
use crate::refusals::GraphError;
use crate::unknown::check_fields;
use graph_plans::{LineOp, Op, PipePlan, Spot};
use json_values::Value;
use outside_io::List;
use pipe_lines::{
    DeferRow, MAX_DEFER_ROWS, MAX_TARGET, MAX_TARGETS, MAX_TOKENS, PipeSpec, is_deferred,
};
use std::alloc::Global;

/// Pipes: of each whether it is serial, and what it does.
#[derive(Drop)]
pub(crate) struct Pipes {
    pub serial: List<bool>,
    pub ops: List<LineOp>,
}

/// The pipes of a task.
pub(crate) fn read_pipe(alloc: Global, spot: Spot, object: &Value<'_>) -> Result<Op, GraphError>
    ensures { Reads result (pipe_in spot (view object.now)) }
{
    let lines = read_lines(alloc, spot, object)?;
    let chunk = read_chunk(alloc, spot, object)?;
    let pipes = read_pipes(alloc, spot, object)?;
    let defers = read_defers(alloc, spot, object)?;
    Ok(Op::Pipe(PipePlan {
        spec: PipeSpec {
            lines,
            serial: pipes.serial,
        },
        ops: pipes.ops,
        chunk,
        defers,
    }))
}

// How many lines there are.
fn read_lines(alloc: Global, spot: Spot, object: &Value<'_>) -> Result<u32, GraphError>
    ensures { Reads result (needed pipe_lines_of spot (codes "lines") (view object.now)) }
{
    let Some(lines) = object.get("lines").and_then(pipe_lines_of) else {
        return Err(bad_field(alloc, spot, "lines"));
    };
    Ok(lines)
}

fn pipe_lines_of(value: &Value<'_>) -> Option<u32>
    ensures { result ≡ pipe_lines_of (view value.now) }
{
    let lines = whole_of(value, 0, u64::from(u32::MAX))?;
    Some(lines as u32)
}

// How many lines of text a token has.
fn read_chunk(alloc: Global, spot: Spot, object: &Value<'_>) -> Result<u64, GraphError>
    ensures { Reads result (allowed 1 part_size_of spot (codes "n") (view object.now)) }
{
    let Some(lines) = object.get("n") else {
        return Ok(1);
    };
    match part_size_of(lines) {
        Some(lines) => Ok(lines),
        None => Err(bad_field(alloc, spot, "n")),
    }
}

// The pipes. Whatever is wrong with one is wrong with the field that holds it.
fn read_pipes(alloc: Global, spot: Spot, object: &Value<'_>) -> Result<Pipes, GraphError>
    ensures { ReadsAs pipe_rows result (pipes_in spot (view object.now)) }
{
    let Some(items) = objects_in(object, "pipes") else {
        return Err(bad_field(alloc, spot, "pipes"));
    };
    match listed_pipes(alloc, spot, items) {
        Ok(pipes) => Ok(pipes),
        Err(GraphError::NoMemory) => Err(GraphError::NoMemory),
        Err(_) => Err(bad_field(alloc, spot, "pipes")),
    }
}

fn listed_pipes(alloc: Global, spot: Spot, items: &[Value<'_>]) -> Result<Pipes, GraphError>
    ensures { ReadsAs pipe_rows result
        (walk (add_pipe spot) (record { serial = []; ops = [] }) (map view items.now)) }
{
    let mut pipes = Pipes {
        serial: List::new(alloc),
        ops: List::new(alloc),
    };
    for item in items {
        add_pipe(alloc, spot, item, &mut pipes)?;
    }
    Ok(pipes)
}

// Puts a pipe at the end.
fn add_pipe(
    alloc: Global,
    spot: Spot,
    item: &Value<'_>,
    pipes: &mut Pipes,
) -> Result<(), GraphError>
    ensures { Leads result (pipe_rows pipes.new)
        (add_pipe spot (pipe_rows pipes.old) (view item.now)) }
{
    let serial = read_serial(alloc, spot, item)?;
    let found = read_line_op(alloc, spot, item)?;
    if !may_have(serial, &found.op) {
        return Err(bad_field(alloc, spot, "op"));
    }
    check_fields(alloc, spot, item, &["serial", "op"], found.fields)?;
    pipes.serial.push(serial)?;
    pipes.ops.push(found.op)?;
    Ok(())
}

fn read_serial(alloc: Global, spot: Spot, object: &Value<'_>) -> Result<bool, GraphError>
    ensures { Reads result (needed as_bool spot (codes "serial") (view object.now)) }
{
    let Some(serial) = object.get("serial").and_then(Value::as_bool) else {
        return Err(bad_field(alloc, spot, "serial"));
    };
    Ok(serial)
}

// Whether a pipe may have an operation.
fn may_have(serial: bool, op: &LineOp) -> bool
    ensures { result ≡ may_have serial op.now }
{
    match op {
        LineOp::Text(_) | LineOp::Number => true,
        LineOp::Stamp => serial,
    }
}

// The operation of a pipe, with its own fields.
fn read_line_op(
    alloc: Global,
    spot: Spot,
    object: &Value<'_>,
) -> Result<FoundOp<LineOp>, GraphError>
    ensures { ReadsAs found_line_op result (op_in line_rows spot (view object.now)) }
{
    let Some(name) = op_name(object) else {
        return Err(bad_field(alloc, spot, "op"));
    };
    read_line_op_called(alloc, name, spot, object)
}

#[tactic(auto, unfolding(crate::specs::OpRows::line_rows))]
fn read_line_op_called(
    alloc: Global,
    name: &str,
    spot: Spot,
    object: &Value<'_>,
) -> Result<FoundOp<LineOp>, GraphError>
    ensures { ReadsAs found_line_op result
        (op_called line_rows name.now spot (view object.now)) }
{
    match name {
        "number" => Ok(with(&[], LineOp::Number)),
        "stamp" => Ok(with(&[], LineOp::Stamp)),
        _ => read_used_line_op(alloc, name, spot, object),
    }
}

// The operation on one text of this name, as a pipe's.
#[tactic(auto, using(crate::proofs::OpLemmas::op_called_used))]
fn read_used_line_op(
    alloc: Global,
    name: &str,
    spot: Spot,
    object: &Value<'_>,
) -> Result<FoundOp<LineOp>, GraphError>
    ensures { ReadsAs found_line_op result
        (op_called (map (used_by (λ op. LineOp.Text op)) text_rows) name.now spot
        (view object.now)) }
{
    match read_text_op(alloc, name, spot, object) {
        Ok(found) => Ok(with(found.fields, LineOp::Text(found.op))),
        Err(refusal) => Err(refusal),
    }
}

// The rows that defer tokens. Whatever is wrong with one is wrong with the field that holds it.
fn read_defers(alloc: Global, spot: Spot, object: &Value<'_>) -> Result<List<DeferRow>, GraphError>
    ensures { Reads result (defers_in spot (view object.now)) }
{
    let Some(items) = defer_objects_in(object) else {
        return Err(bad_field(alloc, spot, "defer"));
    };
    match listed_defers(alloc, spot, items) {
        Ok(rows) => Ok(rows),
        Err(GraphError::NoMemory) => Err(GraphError::NoMemory),
        Err(_) => Err(bad_field(alloc, spot, "defer")),
    }
}

// The items of the field `defer`, which may be missing, if there are as many as there may be.
fn defer_objects_in<'o, 'v>(object: &'o Value<'v>) -> Option<&'o [Value<'v>]>
    ensures { option_map (λ items. map view items.now) result
        ≡ option_map_or defer_objects_of (get (codes "defer") (view object.now)) (Some []) }
{
    let Some(list) = object.get("defer") else {
        return Some(<&[Value<'v>]>::default());
    };
    defer_objects_of(list)
}

fn defer_objects_of<'o, 'v>(value: &'o Value<'v>) -> Option<&'o [Value<'v>]>
    ensures { option_map (λ items. map view items.now) result ≡ defer_objects_of (view value.now) }
{
    let items = objects_of(value)?;
    if items.len() <= MAX_DEFER_ROWS {
        Some(items)
    } else {
        None
    }
}

fn listed_defers(
    alloc: Global,
    spot: Spot,
    items: &[Value<'_>],
) -> Result<List<DeferRow>, GraphError>
    ensures { Reads result (walk (add_defer spot) [] (map view items.now)) }
{
    let mut rows = List::new(alloc);
    for item in items {
        add_defer(alloc, spot, item, &mut rows)?;
    }
    Ok(rows)
}

// Puts a row at the end.
fn add_defer(
    alloc: Global,
    spot: Spot,
    item: &Value<'_>,
    rows: &mut List<DeferRow>,
) -> Result<(), GraphError>
    ensures { Leads result rows.new (add_defer spot rows.old (view item.now)) }
{
    let token = read_token(alloc, spot, item)?;
    let to = read_targets(alloc, spot, item)?;
    if is_deferred(rows.as_slice(), token) {
        return Err(bad_field(alloc, spot, "token"));
    }
    check_fields(alloc, spot, item, &["token", "to"], &[])?;
    rows.push(DeferRow { token, to })?;
    Ok(())
}

fn read_token(alloc: Global, spot: Spot, object: &Value<'_>) -> Result<u64, GraphError>
    ensures { Reads result (needed token_number_of spot (codes "token") (view object.now)) }
{
    let Some(token) = object.get("token").and_then(token_number_of) else {
        return Err(bad_field(alloc, spot, "token"));
    };
    Ok(token)
}

fn token_number_of(value: &Value<'_>) -> Option<u64>
    ensures { result ≡ token_number_of (view value.now) }
{
    whole_of(value, 0, MAX_TOKENS - 1)
}

fn read_targets(alloc: Global, spot: Spot, object: &Value<'_>) -> Result<List<u64>, GraphError>
    ensures { Reads result (needed targets_of spot (codes "to") (view object.now)) }
{
    let Some(items) = target_items_in(object) else {
        return Err(bad_field(alloc, spot, "to"));
    };
    listed_targets(alloc, spot, items)
}

// The items of the field `to`, if it holds as many as there may be targets.
fn target_items_in<'o, 'v>(object: &'o Value<'v>) -> Option<&'o [Value<'v>]>
    ensures { option_map (λ items. map view items.now) result
        ≡ option_and_then target_items_of (get (codes "to") (view object.now)) }
{
    let targets = object.get("to")?;
    target_items_of(targets)
}

fn target_items_of<'o, 'v>(value: &'o Value<'v>) -> Option<&'o [Value<'v>]>
    ensures { option_map (λ items. map view items.now) result ≡ target_items_of (view value.now) }
{
    let items = list_of(value)?;
    if 1 <= items.len() && items.len() <= MAX_TARGETS {
        Some(items)
    } else {
        None
    }
}

fn listed_targets(alloc: Global, spot: Spot, items: &[Value<'_>]) -> Result<List<u64>, GraphError>
    ensures { Reads result (walk
        (put_each (whole_of 0 1000000) (λ target. target) (GraphError.BadField spot (codes "to")))
        [] (map view items.now)) }
{
    let mut targets = List::new(alloc);
    for item in items {
        add_target(alloc, spot, item, &mut targets)?;
    }
    Ok(targets)
}

fn add_target(
    alloc: Global,
    spot: Spot,
    item: &Value<'_>,
    targets: &mut List<u64>,
) -> Result<(), GraphError>
    ensures { Leads result targets.new
        (put_each (whole_of 0 1000000) (λ target. target) (GraphError.BadField spot (codes "to"))
        targets.old (view item.now)) }
{
    let Some(target) = whole_of(item, 0, MAX_TARGET) else {
        return Err(bad_field(alloc, spot, "to"));
    };
    targets.push(target)?;
    Ok(())
}
