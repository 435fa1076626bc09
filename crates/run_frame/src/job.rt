// Jobs.
ghost use Rattle.std.specs.Prelude.{◌≡◌, ◌≤◌, ℕ, List, length, map, IfOk, IfErr};
ghost use Rattle.std.specs.Arc.{arc_value};
ghost use Rattle.join_words.specs.Ins.{InputValue, parts_of, found_of};
ghost use Rattle.run_frame.specs.Meaning.{Meaning, IsRelease, ErrorAllowed, GatherErrorAllowed, AnswerFits, IsOwnWhy};
ghost use Rattle.run_frame.specs.Legal.{IsKept};
ghost use Rattle.run_frame.specs.NestedRule.{job_of, journal_of};
ghost use Rattle.run_frame.specs.Runs.{IsFine};
ghost use Rattle.journal_rules.specs.declared.entry.Why.{Why};
ghost use Rattle.journal_rules.specs.Limits.{max_limit};
ghost use Rattle.run_frame.specs.declared.job.Done.{Done};
ghost use Rattle.run_frame.specs.declared.run.FrameRun.{FrameRun};

use super::run::FrameRun;
use join_words::Ins;
use journal_rules::Why;
use outside_io::List;
use std::alloc::Global;
use std::sync::Arc;
use task_graph::Net;

/// The type of a job's values, apart from what the job does, so that a run can be kept without its job's meaning.
pub trait Valued: Sized {
    type V: Send + Sync + Drop;
}

/// Which of a task's successors an answer releases.
#[derive(Drop)]
pub enum Answer {
    /// Each of them.
    All,
    /// None.
    None,
    /// Those at these indices, in the order in which the edges were added, from 0.
    Indices(List<i64>),
}

/// What a task's work came to.
pub enum Done<J: Valued> {
    /// A value, and which successors go on.
    Value(J::V, Answer),
    /// A job to be run in its place.
    Inner(J),
}

/// Why a task's work came to nothing.
#[derive(Clone, Copy, Debug, PartialEq, Eq)]
pub enum JobError {
    /// A fault that the journal records.
    Fault(Why),
    /// An allocation failed.
    NoMemory,
}

/// A net with its work.
pub trait Job: Valued + Send + Sync {
    /// What jobs of this type may answer.
    ghost meaning: { Meaning Self Self.V };

    /// What holds of each job.
    ghost keeps: { Self → Type 0 };

    /// The net.
    fn net(&self) -> &Arc<Net>
        ensures value { arc_value result.now ≡ meaning.net self.now }
        ensures keeps { keeps self.now };

    /// How many starts a run of it may have.
    fn limit(&self) -> u64
        ensures value { result ≡ meaning.limit self.now }
        ensures small { result ≤ max_limit };

    /// Does the work of a task on the inputs of a start, which are as many as the edges of some cause by which
    /// the task can be released.
    fn run(&self, alloc: Global, task: u32, ins: &Ins<Self::V>) -> Result<Done<Self>, JobError>
        requires { IsRelease (meaning.net self.now) task (length (parts_of ins.now)) }
        ensures answer { IfOk result
            (meaning.answers self.now task (map found_of (parts_of ins.now))) }
        ensures fault { IfErr result
            (ErrorAllowed meaning self.now task (map found_of (parts_of ins.now))) };

    /// Gathers a run of this job, which was run as the work of a task of another job, into the value of that task. The
    /// run is over, and nothing in it was cut short.
    fn gather(&self, alloc: Global, run: &FrameRun<Self>) -> Result<Self::V, JobError>
        requires job { job_of run.now ≡ self.now }
        requires kept { IsKept meaning run.now }
        requires fine { IsFine (journal_of run.now) }
        ensures value { IfOk result (meaning.gathers self.now run.now) }
        ensures fault { IfErr result (GatherErrorAllowed meaning self.now run.now) };

    /// An answer that is allowed fits the task's shape.
    ghost answers_fit: { (job : Self) (task : ℕ) (found : List (InputValue Self.V))
        (done : Done Self Self.V) →
        keeps job → meaning.answers job task found done → AnswerFits (meaning.net job) task done };

    /// A fault that is allowed is the work's own: it reports neither an inner run nor a unit.
    ghost faults_own: { (job : Self) (task : ℕ) (found : List (InputValue Self.V)) (why : Why) →
        keeps job → meaning.faults job task found why → IsOwnWhy why };

    /// So is a fault that gathering a run may name.
    ghost gather_faults_own: { (job : Self) (run : FrameRun Self Self.V) (why : Why) →
        keeps job → meaning.gather_faults job run why → IsOwnWhy why };
}
