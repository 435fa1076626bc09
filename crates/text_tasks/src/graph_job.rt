// Jobs of the graphs of a plan.
ghost use Rattle.std.specs.Prelude.{◌≡◌, ◌<◌, IfOk, length};
ghost use Rattle.join_words.specs.Ins.{parts_of};
ghost use Rattle.run_frame.specs.Meaning.{IsRelease};
ghost use Rattle.text_tasks.specs.GraphWork.{IsWork, graph_of};
ghost use Rattle.text_tasks.specs.ValueTexts.{IsValueText};
ghost use Rattle.text_tasks.specs.inside.Finding.{founds, text_from};

use crate::found::whole_text;
use crate::item::Item;
use crate::job::TextJob;
use crate::table::TextTable;
use crate::task_error::TaskError;
use graph_plans::{Graph, Plan};
use join_words::Ins;
use outside_io::NoMemory;
use run_frame::Done;
use std::alloc::Global;
use std::marker::Model;
use std::sync::Arc;
use text_ops::Text;

/// A graph of a plan, with the texts that the plan's tasks read. Contracts see it as a `GraphWork`.
#[derive(Drop)]
pub struct GraphJob {
    pub(crate) plan: Arc<Plan>,
    pub(crate) texts: Arc<TextTable>,
    pub(crate) module: Option<u32>,
    pub(crate) input: Text,
    pub(crate) limit: u64,
}

impl Model for GraphJob {
    ghost use Rattle.text_tasks.specs.GraphWork.{GraphWork, IsWork};

    ghost Value = { GraphWork };

    ghost use Rattle.text_tasks.specs.inside.Works.{graph_work_of};

    ghost view = { graph_work_of };

    ghost invariant = { λ job. IsWork (graph_work_of job) };
}

impl GraphJob {
    ghost use Rattle.graph_plans.specs.PlanRows.{graph_rows};
    ghost use Rattle.text_tasks.specs.OpMeaning.{module_meaning};
    ghost use Rattle.text_tasks.specs.inside.Working.{OpensAs, TaskDoes};

    // The graph that is run.
    pub(crate) fn graph(&self) -> &Graph
        ensures rows { graph_rows result.now ≡ graph_of self.now }
        ensures work { IsWork self.now }
    {
        let Some(module) = self.module else {
            return &self.plan.top;
        };
        &self.plan.modules.as_slice()[module as usize]
    }

    // What a task answers on what it finds.
    pub(crate) fn answer(
        &self,
        alloc: Global,
        task: u32,
        ins: &Ins<Item>,
    ) -> Result<Done<TextJob>, TaskError>
        requires { IsRelease (graph_of self.now).net task (length (parts_of ins.now)) }
        ensures { TaskDoes (TextJob.Graph self.now) task (founds ins.now) result }
    {
        let op = &self.graph().ops.as_slice()[task as usize];
        self.work(alloc, op, ins)
    }

    // The same graph again, started with this text.
    pub(crate) fn again(&self, input: Text) -> Result<GraphJob, NoMemory>
        requires { IsValueText input }
        ensures { IfOk result (λ job. job ≡ record self.now { input = input }) }
    {
        Ok(GraphJob {
            plan: Arc::try_clone(&self.plan)?,
            texts: Arc::try_clone(&self.texts)?,
            module: self.module,
            input,
            limit: self.limit,
        })
    }

    // The job of the graph of the module of a number, which is started with the text that is found.
    pub(crate) fn module_job(
        &self,
        alloc: Global,
        number: u32,
        ins: &Ins<Item>,
    ) -> Result<TextJob, TaskError>
        requires { number < length self.now.plan.modules }
        ensures { OpensAs (module_meaning self.now number (text_from ins.now 0)) result }
    {
        let input = whole_text(alloc, ins)?;
        Ok(TextJob::Graph(GraphJob {
            plan: Arc::try_clone(&self.plan)?,
            texts: Arc::try_clone(&self.texts)?,
            module: Some(number),
            input,
            limit: self.limit,
        }))
    }
}
