// Jobs of parts that are worked on side by side.
ghost use Rattle.std.specs.Prelude.{◌≡◌, ◌<◌, ◌≤◌, [], IfOk, length};
ghost use Rattle.text_tasks.specs.OpMeaning.{spread_meaning};
ghost use Rattle.text_tasks.specs.inside.Finding.{text_from};
ghost use Rattle.text_tasks.specs.inside.Working.{OpensAs};

use crate::found::text_from;
use crate::item::Item;
use crate::job::TextJob;
use crate::task_error::TaskError;
use crate::work::{apply, hands_on};
use graph_plans::TextOp;
use join_words::Ins;
use nested_runs::spread_net;
use outside_io::{Bytes, List, NoMemory};
use run_frame::{Answer, Done};
use std::alloc::Global;
use std::marker::Model;
use std::sync::Arc;
use task_graph::Net;
use text_ops::{Text, line_parts, part_count};

/// The parts of a text, each of which is put through an operation. Contracts see it as a `PartsWork`.
#[derive(Drop)]
pub struct PartsJob {
    pub(crate) net: Arc<Net>,
    pub(crate) parts: List<Text>,
    op: TextOp,
}

impl Model for PartsJob {
    ghost use Rattle.text_tasks.specs.PartsWork.{PartsWork};

    ghost Value = { PartsWork };

    ghost use Rattle.text_tasks.specs.inside.Works.{HasPartsNet, parts_work_of};

    ghost view = { parts_work_of };

    ghost invariant = { HasPartsNet };
}

impl PartsJob {
    ghost use Rattle.text_tasks.specs.PartsWork.{IsPartsWork};
    ghost use Rattle.text_tasks.specs.inside.Working.{TaskDoes};

    // The names of the tasks, which parts have none of.
    pub(crate) fn names(&self) -> &[Bytes]
        ensures none { result.now ≡ [] }
        ensures few { IsPartsWork self.now }
    {
        let _parts = &self.parts;
        &[]
    }

    // What the task of a part answers. It has no edges, so that what it finds is of no account.
    pub(crate) fn answer(&self, alloc: Global, task: u32) -> Result<Done<TextJob>, TaskError>
        requires { task < length self.now.parts }
        ensures { TaskDoes (TextJob.Parts self.now) task [] result }
    {
        let part = &self.parts.as_slice()[task as usize];
        Ok(hands_on(apply(alloc, &self.op, part)?, Answer::All))
    }
}

// The job of the parts of so many lines each, of the text that is found. No part is copied.
pub(crate) fn parts_job(
    alloc: Global,
    lines: u64,
    each: &TextOp,
    ins: &Ins<Item>,
) -> Result<TextJob, TaskError>
    requires { 1 ≤ lines }
    ensures { OpensAs (spread_meaning lines each.now (text_from ins.now 0)) result }
{
    let text = text_from(alloc, ins, 0)?;
    let net = spread_net(alloc, part_count(&text, lines))?;
    let net = Arc::new(alloc, net)?;
    let parts = line_parts(alloc, &text, lines)?;
    let op = copy_of(each)?;
    Ok(TextJob::Parts(PartsJob { net, parts, op }))
}

// The same operation once more.
pub(crate) fn copy_of(op: &TextOp) -> Result<TextOp, NoMemory>
    ensures { IfOk result (λ copy. copy ≡ op.now) }
{
    Ok(match op {
        TextOp::Pass => TextOp::Pass,
        TextOp::Keep(word) => TextOp::Keep(word.copy()?),
        TextOp::Without(word) => TextOp::Without(word.copy()?),
        TextOp::Head(n) => TextOp::Head(*n),
        TextOp::Tail(n) => TextOp::Tail(*n),
        TextOp::Skip(n) => TextOp::Skip(*n),
        TextOp::Sort => TextOp::Sort,
        TextOp::Uniq => TextOp::Uniq,
        TextOp::Count => TextOp::Count,
        TextOp::Tally => TextOp::Tally,
    })
}
