// A job whose tasks count.
ghost use Rattle.std.specs.Prelude.{◌≡◌, IfOk, IfSome, slice_get};
ghost use Rattle.std.specs.Arc.{arc_value};
ghost use Rattle.task_graph.specs.declared.net.TaskRow.{TaskRow};
ghost use Rattle.run_frame.specs.Meaning.{FitsShape};

use join_words::Ins;
use nested_runs::Recurs;
use outside_io::{List, NoMemory};
use run_frame::{Answer, Done, FrameRun, Job, JobError, Valued};
use std::alloc::Global;
use std::marker::Model;
use std::sync::Arc;
use std::sync::atomic::AtomicU64;
use std::sync::atomic::Ordering::SeqCst;
use task_graph::{Net, NetBuilder, Shape};

/// A job of a net whose tasks come to the numbers from 0 on, also over several rounds and runs. A round follows with
/// the same net, up to a number of rounds after which the next is refused memory.
#[derive(Drop)]
pub struct TickJob {
    net: Arc<Net>,
    rounds: u64,
    // The next number.
    numbers: Arc<AtomicU64>,
}

impl Model for TickJob {
    ghost use Rattle.std.specs.Arc.{arc_value};
    ghost use Rattle.task_graph.specs.NetRows.{NetRows};

    ghost Value = { NetRows };

    ghost view = { λ job. arc_value job.net };
}

impl TickJob {
    /// The job of this net, of which there may be so many rounds.
    pub fn new(alloc: Global, net: Arc<Net>, rounds: u64) -> Result<TickJob, NoMemory>
        ensures { IfOk result (λ job. job ≡ arc_value net) }
    {
        let numbers = Arc::new(alloc, AtomicU64::new(0))?;
        Ok(TickJob {
            net,
            rounds,
            numbers,
        })
    }

    /// The job of a net with so many tasks, and no edge. `Err` comes if an allocation fails, or there are too many
    /// tasks.
    pub fn of_tasks(alloc: Global, tasks: u32) -> Result<TickJob, NoMemory> {
        TickJob::of_rounds(alloc, tasks, u64::MAX)
    }

    /// The same, of which there may be so many rounds.
    pub fn of_rounds(alloc: Global, tasks: u32, rounds: u64) -> Result<TickJob, NoMemory> {
        let mut builder = NetBuilder::new(alloc);
        for _ in 0..tasks {
            let Ok(_) = builder.task(Shape::Plain, List::new(alloc), List::new(alloc)) else {
                return Err(NoMemory);
            };
        }
        TickJob::new(alloc, Arc::new(alloc, builder.finish())?, rounds)
    }

    // Which successors of a task go on.
    fn answer(&self, task: u32) -> Answer
        ensures { IfSome (slice_get self.now.tasks task)
            (λ (row : TaskRow). FitsShape row.shape result) }
    {
        match self.net.tasks().get(task as usize) {
            Some(row) => answer_of(row.shape),
            None => Answer::None,
        }
    }
}

// All successors of a task of this shape, or none if it chooses among them.
fn answer_of(shape: Shape) -> Answer
    ensures { FitsShape shape result }
{
    match shape {
        Shape::Plain | Shape::Nested => Answer::All,
        Shape::Choice | Shape::Many => Answer::None,
    }
}

impl Valued for TickJob {
    type V = u64;
}

impl Job for TickJob {
    ghost use Rattle.desk_trials.specs.TickMeaning.{IsTickJob, tick_answers_fit, tick_faults_own, tick_gather_faults_own, tick_job};

    ghost meaning = { tick_job };

    ghost keeps = { IsTickJob };

    fn net(&self) -> &Arc<Net> {
        &self.net
    }

    fn limit(&self) -> u64 {
        1000
    }

    fn run(&self, _alloc: Global, task: u32, _ins: &Ins<u64>) -> Result<Done<TickJob>, JobError> {
        let number = self.numbers.fetch_add(1, SeqCst);
        Ok(Done::Value(number, self.answer(task)))
    }

    fn gather(&self, _alloc: Global, _run: &FrameRun<TickJob>) -> Result<u64, JobError> {
        Ok(0)
    }

    ghost answers_fit = { tick_answers_fit };

    ghost faults_own = { tick_faults_own };

    ghost gather_faults_own = { tick_gather_faults_own };
}

impl Recurs for TickJob {
    ghost use Rattle.desk_trials.specs.TickMeaning.{IsTickJob};

    ghost may_recur = { IsTickJob };

    fn next(&self, _alloc: Global, _run: &FrameRun<TickJob>) -> Result<TickJob, NoMemory> {
        if self.rounds < 2 {
            return Err(NoMemory);
        }
        Ok(TickJob {
            net: Arc::try_clone(&self.net)?,
            rounds: self.rounds - 1,
            numbers: Arc::try_clone(&self.numbers)?,
        })
    }
}
