// The net of lines and pipes.
ghost use Rattle.std.specs.Prelude.{◌≡◌, ◌<◌, ◌≤◌, ◌*◌, [], length, OnOk, IfOk, IfErr};
ghost use Rattle.task_graph.specs.NetBuilder.{empty_net, with_edge, with_task};
ghost use Rattle.pipe_lines.specs.PipeNet.{cell, cell_edges, cell_row, edges_from, next, pipe_net};
ghost use Rattle.pipe_lines.specs.Pipelines.{IsPipeNet, RefusesPipes, line_limit, pipe_limit};
ghost use Rattle.pipe_lines.specs.inside.Building.{cells_net, with_edges};

use crate::pipeline::{PipeError, PipeSpec, spec_fault};
use outside_io::{List, NoMemory};
use std::alloc::Global;
use task_graph::{Net, NetBuilder, Shape};

/// The net of a pipeline: a plain task for each cell, which is a line and a pipe; an edge from each cell to the next
/// one of its line, round; and one from each cell of a serial pipe to that of the next line, round.
///
/// An edge into the first pipe begins with a token, and so does the edge of a serial pipe into the first line. So of
/// each line, and of each serial pipe, one cell at most works at a time.
#[tactic(auto, using(crate::proofs::FaultLemmas::spec_sound, crate::proofs::FaultLemmas::spec_refused))]
pub fn pipe_net(alloc: Global, spec: &PipeSpec) -> Result<Net, PipeError>
    ensures net { IfOk result (IsPipeNet spec.now) }
    ensures err { IfErr result (RefusesPipes spec.now) }
{
    if let Some(error) = spec_fault(spec) {
        return Err(error);
    }
    Ok(net_of(alloc, spec.lines, spec.serial.as_slice())?)
}

// The net of so many lines and of these pipes.
fn net_of(alloc: Global, lines: u32, serial: &[bool]) -> Result<Net, NoMemory>
    requires lines { lines ≤ line_limit }
    requires pipes { length serial.now ≤ pipe_limit }
    ensures { IfOk result (λ net. net ≡ pipe_net lines serial.now) }
{
    let mut builder = NetBuilder::new(alloc);
    add_cells(alloc, &mut builder, lines * serial.len() as u32)?;
    for line in 0..lines {
        add_line(&mut builder, lines, line, serial)?;
    }
    Ok(builder.finish())
}

// Adds so many cells to the empty net.
fn add_cells(alloc: Global, builder: &mut NetBuilder, count: u32) -> Result<(), NoMemory>
    requires { builder.old ≡ empty_net }
    ensures { OnOk result (builder.new ≡ cells_net count) }
{
    for _cell in 0..count {
        add_cell(alloc, builder)?;
    }
    Ok(())
}

// Adds a plain task to a net without semaphores.
fn add_cell(alloc: Global, builder: &mut NetBuilder) -> Result<(), NoMemory>
    requires { builder.old.sems ≡ [] }
    ensures { OnOk result (builder.new ≡ with_task builder.old cell_row) }
{
    match builder.task(Shape::Plain, List::new(alloc), List::new(alloc)) {
        Ok(_) => Ok(()),
        Err(_) => Err(NoMemory),
    }
}

// Adds the edges out of the cells of a line.
fn add_line(
    builder: &mut NetBuilder,
    lines: u32,
    line: u32,
    serial: &[bool],
) -> Result<(), NoMemory>
    requires lines { lines ≤ line_limit }
    requires line { line < lines }
    requires pipes { length serial.now ≤ pipe_limit }
    ensures { OnOk result (builder.new
        ≡ with_edges builder.old (edges_from lines (length serial.now) line 0 serial.now)) }
{
    let pipes = serial.len() as u32;
    let mut pipe = 0u32;
    for is_serial in serial {
        add_edges(builder, lines, pipes, line, pipe, *is_serial)?;
        pipe += 1;
    }
    Ok(())
}

// Adds the edges out of a cell.
fn add_edges(
    builder: &mut NetBuilder,
    lines: u32,
    pipes: u32,
    line: u32,
    pipe: u32,
    is_serial: bool,
) -> Result<(), NoMemory>
    requires lines { lines ≤ line_limit }
    requires line { line < lines }
    requires pipes { pipes ≤ pipe_limit }
    requires pipe { pipe < pipes }
    ensures { OnOk result (builder.new
        ≡ with_edges builder.old (cell_edges lines pipes line pipe is_serial)) }
{
    let from = cell_of(pipes, line, pipe);
    let along_line = cell_of(pipes, line, next_of(pipes, pipe));
    add_edge(builder, from, along_line, pipe + 1 == pipes)?;
    if is_serial {
        let along_pipe = cell_of(pipes, next_of(lines, line), pipe);
        add_edge(builder, from, along_pipe, line + 1 == lines)?;
    }
    Ok(())
}

// The number after this one of so many, round.
fn next_of(count: u32, number: u32) -> u32
    requires { number < count }
    ensures next { result ≡ next count number }
    ensures below { result < count }
{
    if number + 1 == count { 0 } else { number + 1 }
}

// The task of a line and a pipe.
fn cell_of(pipes: u32, line: u32, pipe: u32) -> u32
    requires pipes { pipes ≤ pipe_limit }
    requires line { line < line_limit }
    requires pipe { pipe < pipes }
    ensures { result ≡ cell pipes line pipe }
{
    line * pipes + pipe
}

// Adds an edge.
fn add_edge(builder: &mut NetBuilder, from: u32, to: u32, start: bool) -> Result<(), NoMemory>
    ensures { OnOk result (builder.new
        ≡ with_edge builder.old (record { from = from; to = to; start = start })) }
{
    match builder.edge(from, to, start) {
        Ok(_) => Ok(()),
        Err(_) => Err(NoMemory),
    }
}
