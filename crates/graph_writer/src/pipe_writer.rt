// How pipelines are written.
ghost use Rattle.std.specs.Prelude.{◌≡◌, All, IfOk, length, map};
ghost use Rattle.serde_json.specs.View.{view};
ghost use Rattle.graph_writer.specs.WrittenPlan.{defer_data, line_op_text, lines_data, pipe_data, pipe_text, pipes_from};
ghost use Rattle.graph_writer.specs.inside.Writer.{HasUtf8Line, HasUtf8Pipes, op_text_of};

use crate::op_writer::{WrittenOp, bare, having, written_text_op};
use graph_plans::{LineOp, PipePlan};
use pipe_lines::DeferRow;
use serde_json::{Value, json, put};
use std::alloc::{AllocError, Global};

/// The pipes of a task.
pub(crate) fn written_pipe(alloc: Global, plan: &PipePlan) -> Result<WrittenOp, AllocError>
    requires { HasUtf8Pipes plan.now }
    ensures { IfOk result (λ written. op_text_of written ≡ pipe_text plan.now) }
{
    let pipes = pipe_values(alloc, plan.spec.serial.as_slice(), plan.ops.as_slice())?;
    let defers = defer_values(alloc, plan.defers.as_slice())?;
    let mut written = having(alloc, "pipe", "pipes", Value::Array(pipes))?;
    put(&mut written.own, alloc, "n", Value::from(plan.chunk))?;
    put(
        &mut written.own,
        alloc,
        "lines",
        Value::from(u64::from(plan.spec.lines)),
    )?;
    put(&mut written.own, alloc, "defer", Value::Array(defers))?;
    Ok(written)
}

fn pipe_values(alloc: Global, serial: &[bool], ops: &[LineOp]) -> Result<Vec<Value>, AllocError>
    requires count { length ops.now ≡ length serial.now }
    requires strings { All HasUtf8Line ops.now }
    ensures { IfOk result (λ values. map view values.items ≡ pipes_from serial.now ops.now) }
{
    let mut values = Vec::new(alloc);
    for (pipe, op) in ops.iter().enumerate() {
        values.push(pipe_value(alloc, serial[pipe], op)?)?;
    }
    Ok(values)
}

fn pipe_value(alloc: Global, serial: bool, op: &LineOp) -> Result<Value, AllocError>
    requires { HasUtf8Line op.now }
    ensures { IfOk result (λ value. view value ≡ pipe_data serial op.now) }
{
    let written = written_line_op(alloc, op)?;
    let mut members = written.own;
    put(&mut members, alloc, "serial", Value::Bool(serial))?;
    put(
        &mut members,
        alloc,
        "op",
        Value::try_from_str(alloc, written.name)?,
    )?;
    Ok(Value::Object(members))
}

fn written_line_op(alloc: Global, op: &LineOp) -> Result<WrittenOp, AllocError>
    requires { HasUtf8Line op.now }
    ensures { IfOk result (λ written. op_text_of written ≡ line_op_text op.now) }
{
    match op {
        LineOp::Text(op) => written_text_op(alloc, op),
        LineOp::Number => Ok(bare(alloc, "number")),
        LineOp::Stamp => Ok(bare(alloc, "stamp")),
    }
}

fn defer_values(alloc: Global, rows: &[DeferRow]) -> Result<Vec<Value>, AllocError>
    ensures { IfOk result (λ values. map view values.items ≡ map defer_data rows.now) }
{
    let mut values = Vec::new(alloc);
    for row in rows {
        values.push(defer_value(alloc, row)?)?;
    }
    Ok(values)
}

fn defer_value(alloc: Global, row: &DeferRow) -> Result<Value, AllocError>
    ensures { IfOk result (λ value. view value ≡ defer_data row.now) }
{
    let to = number_values(alloc, row.to.as_slice())?;
    json!(in alloc; {"to": Value::Array(to), "token": row.token})
}

fn number_values(alloc: Global, numbers: &[u64]) -> Result<Vec<Value>, AllocError>
    ensures { IfOk result (λ values. map view values.items ≡ map lines_data numbers.now) }
{
    let mut values = Vec::new(alloc);
    for number in numbers {
        values.push(Value::from(*number))?;
    }
    Ok(values)
}
