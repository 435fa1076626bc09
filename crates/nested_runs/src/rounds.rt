// Jobs that are run in rounds.
ghost use Rattle.std.specs.Prelude.{◌≡◌, IfOk};
ghost use Rattle.run_frame.specs.Legal.{IsKept};
ghost use Rattle.run_frame.specs.NestedRule.{job_of};

use outside_io::NoMemory;
use run_frame::{FrameRun, Job};
use std::alloc::Global;

/// A job that may be run again, with what a run of it came to.
pub trait Recurs: Job {
    /// Which jobs are run again.
    ghost may_recur: { Self → Type 0 };

    /// The job of the round after a run of this job, by the meaning's `follows`. An `Err` comes only if an allocation
    /// fails.
    fn next(&self, alloc: Global, run: &FrameRun<Self>) -> Result<Self, NoMemory>
        requires recurs { may_recur self.now }
        requires job { job_of run.now ≡ self.now }
        requires kept { IsKept Self.meaning run.now }
        ensures follows { IfOk result (Self.meaning.follows self.now run.now) }
        ensures recurs { IfOk result may_recur };
}
