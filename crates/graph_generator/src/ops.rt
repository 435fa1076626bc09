// The operations of generated tasks.
ghost use Rattle.std.specs.Prelude.{◌≡◌, ◌≤◌, ◌++◌, [], ◌∷◌, IfOk, OnOk};
ghost use Rattle.graph_generator.specs.GeneratedPlan.{even_op, generated_ops, generated_pipeline, last_ops, layer_op, max_layers, odd_op};
ghost use Rattle.graph_generator.specs.inside.Drawn.{drawn};

use crate::generated::LAYER_WIDTH;
use graph_plans::{LineOp, Op, PipePlan, TextOp};
use outside_io::{List, NoMemory};
use pipe_lines::{DeferRow, PipeSpec};
use std::alloc::Global;

/// The operations of the tasks of so many layers, by their draws.
pub(crate) fn ops_of(alloc: Global, layers: usize, draws: &[u64]) -> Result<List<Op>, NoMemory>
    requires few { layers ≤ max_layers }
    requires draws { draws.now ≡ drawn layers }
    ensures { IfOk result (λ ops. ops ≡ generated_ops layers) }
{
    let mut ops = List::new(alloc);
    for task in 0..LAYER_WIDTH * layers {
        ops.push(layer_op(alloc, task, draws[180 + 2 * task])?)?;
    }
    add_last_ops(alloc, &mut ops)?;
    Ok(ops)
}

// What a task of a layer does, by draw 180 + 2 * t where its number is t.
fn layer_op(alloc: Global, task: usize, drawn: u64) -> Result<Op, NoMemory>
    ensures { IfOk result (λ op. op ≡ layer_op task drawn) }
{
    let layer = task / LAYER_WIDTH;
    if layer == 0 {
        return Ok(Op::Read(0));
    }
    let op = if layer % 2 == 1 {
        odd_op(drawn)
    } else {
        even_op(alloc, drawn)?
    };
    Ok(Op::Text(op))
}

// In odd layers.
fn odd_op(drawn: u64) -> TextOp
    ensures { result ≡ odd_op drawn }
{
    if drawn % 2 == 0 {
        TextOp::Head(100)
    } else {
        TextOp::Tail(100)
    }
}

// In even layers.
fn even_op(alloc: Global, drawn: u64) -> Result<TextOp, NoMemory>
    ensures { IfOk result (λ op. op ≡ even_op drawn) }
{
    Ok(match drawn % 3 {
        0 => TextOp::Sort,
        1 => TextOp::Uniq,
        _ => TextOp::Keep(List::from_slice(alloc, b"1")?),
    })
}

// What the tasks behind the layers do.
fn add_last_ops(alloc: Global, ops: &mut List<Op>) -> Result<(), NoMemory>
    ensures { OnOk result (ops.new ≡ ops.old ++ last_ops) }
{
    ops.push(Op::Text(TextOp::Tally))?;
    ops.push(Op::Read(0))?;
    ops.push(Op::Text(TextOp::Skip(1)))?;
    ops.push(Op::IfMore(10))?;
    ops.push(Op::Text(TextOp::Pass))?;
    ops.push(Op::Read(0))?;
    ops.push(Op::Pipe(pipeline(alloc)?))?;
    Ok(())
}

// 200 tokens over four lines, of which one waits for another and that for a third.
fn pipeline(alloc: Global) -> Result<PipePlan, NoMemory>
    ensures { IfOk result (λ plan. plan ≡ generated_pipeline) }
{
    let mut ops = List::new(alloc);
    ops.push(LineOp::Text(TextOp::Pass))?;
    ops.push(LineOp::Text(TextOp::Keep(List::from_slice(alloc, b"w")?)))?;
    ops.push(LineOp::Stamp)?;
    let mut defers = List::new(alloc);
    defers.push(defer(alloc, 1, 3)?)?;
    defers.push(defer(alloc, 2, 1)?)?;
    Ok(PipePlan {
        spec: PipeSpec {
            lines: 4,
            serial: List::from_slice(alloc, &[true, false, true])?,
        },
        ops,
        chunk: 1,
        defers,
    })
}

// A token that waits for one other.
fn defer(alloc: Global, token: u64, to: u64) -> Result<DeferRow, NoMemory>
    ensures { IfOk result (λ row. row ≡ record { token = token; to = to ∷ [] }) }
{
    Ok(DeferRow {
        token,
        to: List::from_slice(alloc, &[to])?,
    })
}
