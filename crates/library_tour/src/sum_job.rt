// A job whose tasks add numbers.
ghost use Rattle.std.specs.Prelude.{◌≡◌, IfSome, map, slice_get};
ghost use Rattle.std.specs.Arc.{arc_value};
ghost use Rattle.task_graph.specs.declared.net.TaskRow.{TaskRow};
ghost use Rattle.join_words.specs.Ins.{found_of, parts_of};
ghost use Rattle.run_frame.specs.Meaning.{FitsShape};
ghost use Rattle.library_tour.specs.SumMeaning.{number_at, number_of, sum_with};

use join_words::{Given, Ins};
use outside_io::List;
use run_frame::{Answer, Done, FrameRun, Job, JobError, Valued};
use std::alloc::Global;
use std::marker::Model;
use std::sync::Arc;
use task_graph::{Net, Shape};

/// A job of a net, whose tasks add numbers: each comes to its own number plus those that it finds at its edges.
#[derive(Drop)]
pub struct SumJob {
    net: Arc<Net>,
    numbers: List<u64>,
}

impl Model for SumJob {
    ghost use Rattle.std.specs.Arc.{arc_value};
    ghost use Rattle.library_tour.specs.SumMeaning.{SumWork};

    ghost Value = { SumWork };

    ghost view = { λ job. record { net = arc_value job.net; numbers = job.numbers } };
}

impl SumJob {
    /// The job of this net, where these are the numbers of the tasks. One that has none here adds nothing.
    pub fn new(net: Arc<Net>, numbers: List<u64>) -> SumJob
        ensures { result ≡ record { net = arc_value net; numbers = numbers } }
    {
        SumJob { net, numbers }
    }

    // A task's own number.
    fn number(&self, task: u32) -> u64
        ensures { result ≡ number_at self.now.numbers task }
    {
        match self.numbers.get(task as usize) {
            Some(number) => *number,
            None => 0,
        }
    }

    // Which successors of a task go on.
    fn answer(&self, task: u32) -> Answer
        ensures { IfSome (slice_get self.now.net.tasks task)
            (λ (row : TaskRow). FitsShape row.shape result) }
    {
        match self.net.tasks().get(task as usize) {
            Some(row) => answer_of(row.shape),
            None => Answer::None,
        }
    }
}

// All successors of a task of this shape, or none if it chooses among them.
fn answer_of(shape: Shape) -> Answer
    ensures { FitsShape shape result }
{
    match shape {
        Shape::Plain | Shape::Nested => Answer::All,
        Shape::Choice | Shape::Many => Answer::None,
    }
}

// A number and those that are found, added. It stays at the greatest u64.
fn sum_with(number: u64, ins: &Ins<u64>) -> u64
    ensures { result ≡ sum_with number (map found_of (parts_of ins.now)) }
{
    let mut sum = number;
    for place in 0..ins.len() {
        let Some(given) = ins.get(place) else {
            unreachable!()
        };
        sum = sum.saturating_add(number_of(given));
    }
    sum
}

// The number that is given at an edge.
fn number_of(given: &Given<u64>) -> u64
    ensures { result ≡ number_of (found_of given.now) }
{
    match given {
        Given::Value(_, number) => **number,
        Given::First | Given::Nothing => 0,
    }
}

impl Valued for SumJob {
    type V = u64;
}

impl Job for SumJob {
    ghost use Rattle.library_tour.specs.SumMeaning.{IsSumJob, sum_answers_fit, sum_faults_own, sum_gather_faults_own, sum_job};

    ghost meaning = { sum_job };

    ghost keeps = { IsSumJob };

    fn net(&self) -> &Arc<Net> {
        &self.net
    }

    fn limit(&self) -> u64 {
        1000
    }

    fn run(&self, _alloc: Global, task: u32, ins: &Ins<u64>) -> Result<Done<SumJob>, JobError> {
        let sum = sum_with(self.number(task), ins);
        Ok(Done::Value(sum, self.answer(task)))
    }

    fn gather(&self, _alloc: Global, _run: &FrameRun<SumJob>) -> Result<u64, JobError> {
        Ok(0)
    }

    ghost answers_fit = { sum_answers_fit };

    ghost faults_own = { sum_faults_own };

    ghost gather_faults_own = { sum_gather_faults_own };
}
