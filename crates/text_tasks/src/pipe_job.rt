// Jobs of pipelines.
ghost use Rattle.std.specs.Prelude.{◌≡◌, ◌<◌, ◌≤◌, [], IfOk, length, slice_index_or};
ghost use Rattle.std.specs.Option.{option_copied};
ghost use Rattle.graph_plans.specs.Operations.{IsPipePlan};
ghost use Rattle.join_words.specs.Ins.{parts_of};
ghost use Rattle.journal_rules.specs.Limits.{max_limit};
ghost use Rattle.pipe_lines.specs.Orders.{passed_at};
ghost use Rattle.pipe_lines.specs.PipeNet.{pipe_net};
ghost use Rattle.pipe_lines.specs.Pipelines.{IsPipeline};
ghost use Rattle.run_frame.specs.Meaning.{IsRelease};
ghost use Rattle.text_tasks.specs.CellMeaning.{enters, goes_on, place_in};
ghost use Rattle.text_tasks.specs.FoundTexts.{found_text};
ghost use Rattle.text_tasks.specs.JobMeaning.{limit_of, net_of};
ghost use Rattle.text_tasks.specs.OpMeaning.{pipe_meaning};
ghost use Rattle.text_tasks.specs.inside.CellInputs.{found_or, token_of};
ghost use Rattle.text_tasks.specs.inside.Finding.{founds, text_from};
ghost use Rattle.text_tasks.specs.inside.Working.{DoesAs, OpensAs};

use crate::cell_inputs::{input_along, next_place};
use crate::found::text_from;
use crate::item::{CellItem, Item};
use crate::job::TextJob;
use crate::line_ops::{apply_line_op, copy_of_line_ops};
use crate::task_error::TaskError;
use graph_plans::{LineOp, PipePlan};
use join_words::{Given, Ins};
use outside_io::{Bytes, List, NoMemory};
use pipe_lines::{MAX_TOKENS, Order, Passed, PipeSpec, along_pipes, pass_order, pipe_net};
use run_frame::{Answer, Done};
use std::alloc::Global;
use std::marker::Model;
use std::sync::Arc;
use task_graph::Net;
use text_ops::{Text, line_parts, part_count};

/// The parts of a text, which go through pipes as tokens. Contracts see it as a `PipeWork`.
///
/// The order in which the tokens pass the first pipe is computed with the job. Of each edge of the net the job has
/// whether it leads along a pipe.
#[derive(Drop)]
pub struct PipeJob {
    pub(crate) net: Arc<Net>,
    pub(crate) along_pipe: List<bool>,
    pub(crate) spec: PipeSpec,
    pub(crate) ops: List<LineOp>,
    pub(crate) parts: List<Text>,
    pub(crate) order: Order,
}

impl Model for PipeJob {
    ghost use Rattle.text_tasks.specs.PipeWork.{PipeWork};

    ghost Value = { PipeWork };

    ghost use Rattle.text_tasks.specs.inside.Works.{IsPipeInside, pipe_work_of};

    ghost view = { pipe_work_of };

    ghost invariant = { IsPipeInside };
}

impl PipeJob {
    ghost use Rattle.text_tasks.specs.PipeWork.{IsPipeWork, pipeline_of};
    ghost use Rattle.text_tasks.specs.Cells.{line_input, pipe_input};
    ghost use Rattle.text_tasks.specs.CellMeaning.{pipe_of};
    ghost use Rattle.text_tasks.specs.inside.Working.{TaskDoes};

    /// The lines, and of each pipe whether it is serial.
    pub fn spec(&self) -> &PipeSpec
        ensures { result.now ≡ self.now.spec }
    {
        &self.spec
    }

    // The names of the tasks, which cells have none of.
    pub(crate) fn names(&self) -> &[Bytes]
        ensures none { result.now ≡ [] }
        ensures work { IsPipeWork self.now }
    {
        let _parts = &self.parts;
        &[]
    }

    // How many starts a run may have: one for each token at each pipe, and one behind the last token.
    pub(crate) fn limit(&self) -> u64
        ensures value { result ≡ limit_of (TextJob.Pipe self.now) }
        ensures small { result ≤ max_limit }
    {
        self.parts.len() as u64 * self.spec.serial.len() as u64 + 1
    }

    // What a cell answers on what it finds.
    pub(crate) fn answer(
        &self,
        alloc: Global,
        task: u32,
        ins: &Ins<Item>,
    ) -> Result<Done<TextJob>, TaskError>
        requires { IsRelease (net_of (TextJob.Pipe self.now)) task (length (parts_of ins.now)) }
        ensures { TaskDoes (TextJob.Pipe self.now) task (founds ins.now) result }
    {
        let pipe = self.pipe_of(task);
        let op = &self.ops.as_slice()[pipe];
        if pipe == 0 {
            self.enter(alloc, op, next_place(self.pipe_input(task, ins)))
        } else {
            go_along(alloc, op, self.line_input(task, ins))
        }
    }

    // What a cell finds along its pipe.
    fn pipe_input<'i>(&self, task: u32, ins: &'i Ins<Item>) -> Option<&'i Given<Item>>
        requires { task < length (net_of (TextJob.Pipe self.now)).tasks }
        ensures { found_or (option_copied result)
            ≡ pipe_input (pipeline_of self.now) task (founds ins.now) }
    {
        input_along(
            self.along_pipe.as_slice(),
            self.net.strong_in(task),
            ins,
            true,
        )
    }

    // What it finds along its line.
    fn line_input<'i>(&self, task: u32, ins: &'i Ins<Item>) -> Option<&'i Given<Item>>
        requires { task < length (net_of (TextJob.Pipe self.now)).tasks }
        ensures { found_or (option_copied result)
            ≡ line_input (pipeline_of self.now) task (founds ins.now) }
    {
        input_along(
            self.along_pipe.as_slice(),
            self.net.strong_in(task),
            ins,
            false,
        )
    }

    // The pipe of a cell.
    fn pipe_of(&self, task: u32) -> usize
        ensures pipe { result ≡ pipe_of self.now task }
        ensures below { result < length self.now.ops }
    {
        task as usize % self.ops.len()
    }

    // What a cell of the first pipe answers at a place of the order.
    fn enter(&self, alloc: Global, op: &LineOp, place: u64) -> Result<Done<TextJob>, TaskError>
        ensures { DoesAs (enters self.now op.now place (passed_at self.now.order place)) result }
    {
        match self.order.at(place) {
            Passed::Token(token) => go_on(alloc, op, token, place, &self.part(token)?),
            Passed::Stop => Ok(end_at(place)),
            Passed::Unmet(token) => Err(TaskError::Unmet(token)),
        }
    }

    // The part of a number, or the empty text where there is none.
    fn part(&self, number: u64) -> Result<Text, NoMemory>
        ensures { IfOk result (λ text. text ≡ slice_index_or self.now.parts number []) }
    {
        match self.parts.get(number as usize) {
            Some(part) => part.share(),
            None => Ok(Text::new()),
        }
    }
}

// What a cell of another pipe answers on what came along its line.
fn go_along(
    alloc: Global,
    op: &LineOp,
    input: Option<&Given<Item>>,
) -> Result<Done<TextJob>, TaskError>
    ensures { DoesAs
        (goes_on op.now (token_of (found_or (option_copied input.entry)))
        (place_in (found_or (option_copied input.entry)))
        (found_text (found_or (option_copied input.entry)))) result }
{
    match input {
        Some(Given::Value(_, item)) => { go_on(alloc, op, item.token(), item.place(), item.text()) }
        _ => go_on(alloc, op, 0, 0, &Text::new()),
    }
}

// A token goes on with what the operation of its cell makes of its text.
fn go_on(
    alloc: Global,
    op: &LineOp,
    token: u64,
    place: u64,
    text: &Text,
) -> Result<Done<TextJob>, TaskError>
    ensures { DoesAs (goes_on op.now token place text.now) result }
{
    let text = apply_line_op(alloc, op, token, place, text)?;
    Ok(moves_on(CellItem { text, token, place }, Answer::All))
}

// Behind the last token nothing goes on.
fn end_at(place: u64) -> Done<TextJob>
    ensures { result ≡ Done.Value
        (Item.Cell (record { text = []; token = 0; place = place })) Answer.None }
{
    let cell = CellItem {
        text: Text::new(),
        token: 0,
        place,
    };
    moves_on(cell, Answer::None)
}

// A cell ends with a token, for those of its successors that the answer names.
fn moves_on(cell: CellItem, answer: Answer) -> Done<TextJob>
    ensures { result ≡ Done.Value (Item.Cell cell) answer }
{
    Done::Value(Item::Cell(cell), answer)
}

// The job of a plan's pipeline on the text that is found. No part is copied.
pub(crate) fn pipe_job(
    alloc: Global,
    plan: &PipePlan,
    ins: &Ins<Item>,
) -> Result<TextJob, TaskError>
    requires plan { IsPipePlan plan.now }
    requires pipeline { IsPipeline plan.now.spec }
    ensures { OpensAs (pipe_meaning plan.now (text_from ins.now 0)) result }
{
    let text = text_from(alloc, ins, 0)?;
    let tokens = part_count(&text, plan.chunk);
    if tokens > MAX_TOKENS {
        return Err(TaskError::Wide(tokens));
    }
    let spec = copy_of_spec(&plan.spec)?;
    let net = Arc::new(alloc, net_of_pipes(alloc, &spec)?)?;
    let along_pipe = along_pipes(alloc, &spec)?;
    let ops = copy_of_line_ops(alloc, plan.ops.as_slice())?;
    let parts = line_parts(alloc, &text, plan.chunk)?;
    let order = pass_order(alloc, tokens, plan.defers.as_slice())?;
    Ok(TextJob::Pipe(PipeJob {
        net,
        along_pipe,
        spec,
        ops,
        parts,
        order,
    }))
}

// The net of a pipeline.
fn net_of_pipes(alloc: Global, spec: &PipeSpec) -> Result<Net, NoMemory>
    requires { IsPipeline spec.now }
    ensures { IfOk result (λ net. net ≡ pipe_net spec.now.lines spec.now.serial) }
{
    match pipe_net(alloc, spec) {
        Ok(net) => Ok(net),
        Err(_) => Err(NoMemory),
    }
}

// The same lines and pipes once more.
fn copy_of_spec(spec: &PipeSpec) -> Result<PipeSpec, NoMemory>
    ensures { IfOk result (λ copy. copy ≡ spec.now) }
{
    Ok(PipeSpec {
        lines: spec.lines,
        serial: spec.serial.copy()?,
    })
}
