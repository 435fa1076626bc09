// The jobs of graph files.
ghost use Rattle.std.specs.Prelude.{◌≡◌};
ghost use Rattle.std.specs.Arc.{arc_value};
ghost use Rattle.graph_plans.specs.PlanRows.{plan_rows};
ghost use Rattle.text_tasks.specs.GraphWork.{IsWork, first_work};

use crate::gathered::gathered_text;
use crate::graph_job::GraphJob;
use crate::item::Item;
use crate::parts_job::PartsJob;
use crate::pipe_job::PipeJob;
use crate::pipe_text::pipe_text;
use crate::table::TextTable;
use crate::task_error::TaskError;
use graph_plans::Plan;
use join_words::Ins;
use outside_io::Bytes;
use run_frame::{Done, FrameRun, Job, JobError, Valued};
use std::alloc::Global;
use std::sync::Arc;
use task_graph::Net;
use text_ops::{ApplyError, Text};

/// A job of text tasks.
#[derive(Drop)]
pub enum TextJob {
    /// The tasks of a graph.
    Graph(GraphJob),
    /// A task for each part of a text.
    Parts(PartsJob),
    /// A task for each line and pipe, where each part of a text goes through all pipes.
    Pipe(PipeJob),
}

impl TextJob {
    ghost use Rattle.text_tasks.specs.JobMeaning.{names_of, IsTextJob};

    /// The names of the tasks, by their numbers in the net. Those of parts and of cells have none.
    pub fn names(&self) -> &[Bytes]
        ensures names { result.now ≡ names_of self.now }
        ensures work { IsTextJob self.now }
    {
        match self {
            TextJob::Graph(job) => job.graph().names.as_slice(),
            TextJob::Parts(job) => job.names(),
            TextJob::Pipe(job) => job.names(),
        }
    }
}

impl TextJob {
    ghost use Rattle.std.specs.Option.{option_copied, option_map};
    ghost use Rattle.text_tasks.specs.JobMeaning.{job_plan};

    /// The plan, one of whose graphs is run. Parts and pipelines have none.
    pub fn plan(&self) -> Option<&Plan>
        ensures { option_map plan_rows (option_copied result) ≡ job_plan self.now }
    {
        match self {
            TextJob::Graph(job) => Some(&job.plan),
            TextJob::Parts(_) | TextJob::Pipe(_) => None,
        }
    }
}

impl TextJob {
    ghost use Rattle.text_ops.specs.Values.{Makes};
    ghost use Rattle.text_tasks.specs.JobMeaning.{text_gathered};

    // The text to which a run is gathered.
    fn gathered(&self, alloc: Global, run: &FrameRun<TextJob>) -> Result<Text, ApplyError>
        ensures { Makes (text_gathered self.now run.now) result }
    {
        match self {
            TextJob::Graph(job) => gathered_text(alloc, &job.graph().net, run),
            TextJob::Parts(job) => gathered_text(alloc, &job.net, run),
            TextJob::Pipe(job) => pipe_text(alloc, job, run),
        }
    }
}

impl Valued for TextJob {
    type V = Item;
}

impl Job for TextJob {
    ghost use Rattle.text_tasks.specs.JobMeaning.{text_job, IsTextJob};
    ghost use Rattle.text_tasks.specs.JobLaws.{text_answers_fit, text_faults_own, text_gather_faults_own};

    ghost meaning = { text_job };

    ghost keeps = { IsTextJob };

    fn net(&self) -> &Arc<Net> {
        match self {
            TextJob::Graph(job) => &job.graph().net,
            TextJob::Parts(job) => &job.net,
            TextJob::Pipe(job) => &job.net,
        }
    }

    fn limit(&self) -> u64 {
        match self {
            TextJob::Graph(job) => job.limit,
            TextJob::Parts(job) => (job.parts.len() as u64).max(1),
            TextJob::Pipe(job) => job.limit(),
        }
    }

    /// Does the work of a task's operation. It waits for nothing: a module, a spread and a pipeline are answered with
    /// the job that is to be run in the task's place. It faults with `Long` where the value, or the text with which a
    /// module is started, would have more than 16,777,216 bytes, and with `Wide` where a text would have more than
    /// 65,536 parts. `Long` is found without putting the text together where that is the task's whole text, and `Wide`
    /// without cutting any part. A cell of the first pipe faults with `Unmet` where no token passes any more and some
    /// are left.
    fn run(&self, alloc: Global, task: u32, ins: &Ins<Item>) -> Result<Done<TextJob>, JobError> {
        let done = match self {
            TextJob::Graph(job) => job.answer(alloc, task, ins)?,
            TextJob::Parts(job) => job.answer(alloc, task)?,
            TextJob::Pipe(job) => job.answer(alloc, task, ins)?,
        };
        Ok(done)
    }

    /// Puts together what the tasks of the run ended with that lead to no other, in the order of their numbers; of a
    /// pipeline, what the last pipe ended with for each token, in the order in which the tokens passed the first. It
    /// faults with `Long` where that would have more than 16,777,216 bytes. Where just one of the texts isn't empty its
    /// bytes are shared.
    fn gather(&self, alloc: Global, run: &FrameRun<TextJob>) -> Result<Item, JobError> {
        match self.gathered(alloc, run) {
            Ok(text) => Ok(Item::Text(text)),
            Err(error) => Err(JobError::from(TaskError::from(error))),
        }
    }

    ghost answers_fit = { text_answers_fit };

    ghost faults_own = { text_faults_own };

    ghost gather_faults_own = { text_gather_faults_own };
}

/// The job of a plan's top graph, started with the empty text.
pub fn first_job(plan: Arc<Plan>, texts: Arc<TextTable>, limit: u64) -> TextJob
    requires { IsWork (first_work (plan_rows (arc_value plan)) (arc_value texts) limit) }
    ensures { result ≡ TextJob.Graph
        (first_work (plan_rows (arc_value plan)) (arc_value texts) limit) }
{
    TextJob::Graph(GraphJob {
        plan,
        texts,
        module: None,
        input: Text::new(),
        limit,
    })
}
