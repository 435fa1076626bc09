// The operations of pipes.
ghost use Rattle.std.specs.Prelude.{◌≡◌, IfOk};
ghost use Rattle.text_ops.specs.Values.{Makes};
ghost use Rattle.text_tasks.specs.CellMeaning.{line_op_value};

use crate::parts_job::copy_of;
use crate::work::apply;
use graph_plans::LineOp;
use outside_io::{List, NoMemory};
use std::alloc::Global;
use text_ops::{ApplyError, Text, numbered};

// What the operation of a pipe makes of the text of a token with a place in the order.
pub(crate) fn apply_line_op(
    alloc: Global,
    op: &LineOp,
    token: u64,
    place: u64,
    text: &Text,
) -> Result<Text, ApplyError>
    ensures { Makes (line_op_value op.now token place text.now) result }
{
    match op {
        LineOp::Text(op) => apply(alloc, op, text),
        LineOp::Number => numbered(alloc, token, text),
        LineOp::Stamp => numbered(alloc, place, text),
    }
}

// The same operations once more.
pub(crate) fn copy_of_line_ops(alloc: Global, ops: &[LineOp]) -> Result<List<LineOp>, NoMemory>
    ensures { IfOk result (λ copies. copies ≡ ops.now) }
{
    let mut copies = List::with_room(alloc, ops.len())?;
    for op in ops {
        copies.push(copy_of_line_op(op)?)?;
    }
    Ok(copies)
}

fn copy_of_line_op(op: &LineOp) -> Result<LineOp, NoMemory>
    ensures { IfOk result (λ copy. copy ≡ op.now) }
{
    Ok(match op {
        LineOp::Text(op) => LineOp::Text(copy_of(op)?),
        LineOp::Number => LineOp::Number,
        LineOp::Stamp => LineOp::Stamp,
    })
}
