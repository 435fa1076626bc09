// Jobs of numbers.
ghost use Rattle.std.specs.Prelude.{◌≡◌, ◌≤◌, [], map, IfOk, IfSome, IsTrue, slice_get};
ghost use Rattle.std.specs.Arc.{arc_value};
ghost use Rattle.task_graph.specs.declared.net.TaskRow.{TaskRow};
ghost use Rattle.join_words.specs.Ins.{parts_of, found_of};
ghost use Rattle.run_frame.specs.Meaning.{FitsShape};
ghost use Rattle.test_jobs.specs.NumberMeaning.{IsInnerJob, IsNestedTask, NumberDone, number_after, number_from, with_inner};

use join_words::{Given, Ins};
use journal_rules::Why;
use outside_io::{List, NoMemory};
use run_frame::{Answer, Done, FrameRun, Job, JobError, Valued};
use std::alloc::Global;
use std::marker::Model;
use std::sync::Arc;
use std::sync::atomic::AtomicU64;
use std::sync::atomic::Ordering::SeqCst;
use std::thread::yield_now;
use task_graph::{Net, Shape};

/// The most starts that a run may have.
pub const START_LIMIT: u64 = 2_097_152;

// How often a task looks for the others that it is to meet.
const LOOKS: u32 = 10_000_000;

/// A job of numbers.
#[derive(Drop)]
pub struct NumberJob {
    net: Arc<Net>,
    // The nets of the jobs inside it: the first of these is that of the next, from this level on.
    nets: Option<Arc<Vec<Arc<Net>>>>,
    level: usize,
    limit: u64,
    turns: u64,
    fault: u64,
    // What a task does besides, of which nothing comes.
    additions: u64,
    // How many tasks are to meet, how many have begun, and how many of these have seen that so many had.
    meeting: u64,
    begun: AtomicU64,
    met: AtomicU64,
    // How many tasks of each run inside are to meet.
    meeting_inside: u64,
}

impl Model for NumberJob {
    ghost use Rattle.std.specs.Prelude.{◌≤◌};
    ghost use Rattle.std.specs.Arc.{arc_value};
    ghost use Rattle.test_jobs.specs.NumberMeaning.{NumberWork, nets_inside};

    ghost Value = { NumberWork };

    ghost view = { λ job. record {
      net = arc_value job.net;
      inner = nets_inside job.nets job.level;
      limit = job.limit;
      turns = job.turns;
      fault = job.fault;
    } };

    ghost invariant = { λ job. job.limit ≤ 2097152 };
}

impl NumberJob {
    /// A job of a net, with at most `limit` starts, no more than `START_LIMIT`; else `None`. A task that comes to the
    /// number `fault` faults. Below `turns` a Choice chooses its first edge and from there its second; a Many chooses
    /// the same, and its third.
    pub fn new(net: Arc<Net>, limit: u64, turns: u64, fault: u64) -> Option<NumberJob>
        ensures { IfSome result (λ job. job
            ≡ record
            { net = arc_value net; inner = []; limit = limit; turns = turns; fault = fault }) }
    {
        if limit > START_LIMIT {
            return None;
        }
        Some(NumberJob {
            net,
            nets: None,
            level: 0,
            limit,
            turns,
            fault,
            additions: 0,
            meeting: 0,
            begun: AtomicU64::new(0),
            met: AtomicU64::new(0),
            meeting_inside: 0,
        })
    }

    /// The same job, of which each task first adds so often to an atomic word of its own. That takes time, for
    /// measurements, and nothing comes of it.
    pub fn with_additions(self, additions: u64) -> NumberJob
        ensures { result ≡ self }
    {
        NumberJob { additions, ..self }
    }

    /// The same job, of which each task first waits a long while until so many tasks have begun.
    pub fn with_meeting(self, tasks: u64) -> NumberJob
        ensures { result ≡ self }
    {
        NumberJob {
            meeting: tasks,
            ..self
        }
    }

    /// The same job, of which a Nested task answers a job of the first of these nets, one of that job a job of the
    /// second, and so on. Below the last it answers its number. A run is gathered to the number of its entries.
    pub fn with_inner(self, nets: Arc<Vec<Arc<Net>>>) -> NumberJob
        ensures { result ≡ with_inner (map arc_value (arc_value nets).items) self }
    {
        NumberJob {
            nets: Some(nets),
            level: 0,
            ..self
        }
    }

    /// The same job, of whose runs inside each task first waits a long while until so many tasks of its own run have
    /// begun.
    pub fn with_meeting_inside(self, tasks: u64) -> NumberJob
        ensures { result ≡ self }
    {
        NumberJob {
            meeting_inside: tasks,
            ..self
        }
    }

    // The job that a Nested task answers, if there is one.
    fn inner(&self) -> Result<Option<NumberJob>, NoMemory>
        ensures { IfOk result (λ inner. IfSome inner (IsInnerJob self.now)) }
    {
        let Some(nets) = &self.nets else {
            return Ok(None);
        };
        let Some(net) = nets.get(self.level) else {
            return Ok(None);
        };
        Ok(Some(NumberJob {
            net: Arc::try_clone(net)?,
            nets: Some(Arc::try_clone(nets)?),
            level: self.level + 1,
            limit: self.limit,
            turns: self.turns,
            fault: self.fault,
            additions: self.additions,
            meeting: self.meeting_inside,
            begun: AtomicU64::new(0),
            met: AtomicU64::new(0),
            meeting_inside: self.meeting_inside,
        }))
    }

    // Whether a task is Nested.
    fn is_nested(&self, task: u32) -> bool
        ensures { IsTrue result → IsNestedTask self.now.net task }
    {
        match self.net.tasks().get(task as usize) {
            Some(row) => matches!(row.shape, Shape::Nested),
            None => false,
        }
    }

    // What a task does that comes to a number.
    fn done(&self, alloc: Global, task: u32, number: u64) -> Result<Done<NumberJob>, NoMemory>
        ensures { IfOk result (NumberDone self.now task number) }
    {
        if self.is_nested(task) {
            if let Some(inner) = self.inner()? {
                return Ok(Done::Inner(inner));
            }
        }
        let answer = self.answer(alloc, task, number)?;
        Ok(Done::Value(number, answer))
    }

    /// How many tasks have seen that as many had begun as were to meet.
    pub fn met(&self) -> u64 {
        self.met.load(SeqCst)
    }

    // Waits until as many tasks have begun as are to meet.
    fn meet(&self) {
        self.begun.fetch_add(1, SeqCst);
        for _ in 0..LOOKS {
            if self.begun.load(SeqCst) >= self.meeting {
                self.met.fetch_add(1, SeqCst);
                return;
            }
            yield_now();
        }
    }

    // Which edges a task signals that comes to a number.
    fn answer(&self, alloc: Global, task: u32, number: u64) -> Result<Answer, NoMemory>
        ensures { IfOk result (λ answer. IfSome (slice_get self.now.net.tasks task)
            (λ (row : TaskRow). FitsShape row.shape answer)) }
    {
        match self.net.tasks().get(task as usize) {
            Some(row) => self.answer_of(alloc, row.shape, number),
            None => Ok(Answer::None),
        }
    }

    // Which edges a task of this shape signals.
    fn answer_of(&self, alloc: Global, shape: Shape, number: u64) -> Result<Answer, NoMemory>
        ensures { IfOk result (FitsShape shape) }
    {
        let first = if number < self.turns { 0 } else { 1 };
        match shape {
            Shape::Plain => Ok(Answer::All),
            Shape::Choice => Ok(Answer::Indices(List::from_slice(alloc, &[first])?)),
            Shape::Many => Ok(Answer::Indices(List::from_slice(alloc, &[first, 2])?)),
            Shape::Nested => Ok(Answer::All),
        }
    }
}

// Adds so often to an atomic word, which no compiler leaves out.
fn add_often(additions: u64) {
    let word = AtomicU64::new(0);
    for _ in 0..additions {
        word.fetch_add(1, SeqCst);
    }
}

// The number that a task comes to.
fn number_made(ins: &Ins<u64>) -> u64
    ensures { result ≡ number_from (map found_of (parts_of ins.now)) }
{
    match ins.get(0) {
        Some(given) => number_after(given),
        None => 1,
    }
}

// One more than the number that is given.
fn number_after(given: &Given<u64>) -> u64
    ensures { result ≡ number_after (found_of given.now) }
{
    match given {
        Given::Value(_, number) => number.saturating_add(1),
        Given::First => 1,
        Given::Nothing => 1,
    }
}

impl Valued for NumberJob {
    type V = u64;
}

impl Job for NumberJob {
    ghost use Rattle.test_jobs.specs.NumberMeaning.{number_job, IsNumberJob, number_answers_fit, number_faults_own, number_gather_faults_own};

    ghost meaning = { number_job };

    ghost keeps = { IsNumberJob };

    fn net(&self) -> &Arc<Net> {
        &self.net
    }

    fn limit(&self) -> u64 {
        self.limit
    }

    fn run(&self, alloc: Global, task: u32, ins: &Ins<u64>) -> Result<Done<NumberJob>, JobError> {
        add_often(self.additions);
        if self.meeting > 0 {
            self.meet();
        }
        let number = number_made(ins);
        if number == self.fault {
            return Err(JobError::Fault(Why::Long(number)));
        }
        match self.done(alloc, task, number) {
            Ok(done) => Ok(done),
            Err(NoMemory) => Err(JobError::NoMemory),
        }
    }

    /// The number of the run's entries. If it is that at which tasks fault, so does this.
    fn gather(&self, _alloc: Global, run: &FrameRun<NumberJob>) -> Result<u64, JobError> {
        let number = run.journal.len() as u64;
        if number == self.fault {
            return Err(JobError::Fault(Why::Wide(number)));
        }
        Ok(number)
    }

    ghost answers_fit = { number_answers_fit };

    ghost faults_own = { number_faults_own };

    ghost gather_faults_own = { number_gather_faults_own };
}
